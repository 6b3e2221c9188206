// The statements of eBPF assembler, one function for each form: a binary operation with a given operator, a load, a store, a jump, a
// call, as llvm-objdump writes them. specs/Statements.antt has each text. Which statement a slot is, `ebpf_text` says.

#![tactic(auto)]

ghost use Rattle.std.specs.Prelude.{◌≡◌};
ghost use Rattle.base.specs.Widths.{size_bits};
ghost use Rattle.text.specs.Lent.{Says, given};
ghost use Rattle.ebpf_statements.specs.Statements.{letter_of, operand_of, binary, neg_text, wide_text, le_text, be_text};
ghost use Rattle.ebpf_statements.specs.Statements.{abs_text, ind_text, load_text, store_imm_text, store_reg_text, goto_text, call_text, plain_text};

use base::{Size, Width};
use ebpf::insn::Insn;
use ebpf::kind::Source;
use text::form::put_form;
use text::number::extended;
use text::text::put_text;

// The letter in front of a register's number: `w` where only its low half counts, or `r`.
fn letter_of(width: Width) -> u64
    ensures { result ≡ letter_of width }
{
    u64::from(match width {
        Width::W32 => b'w',
        Width::W64 => b'r',
    })
}

// One match, as a method of `Size` would be, for which `size_bits` of base/specs/Widths.antt is the definition.
fn size_bits(size: Size) -> u64
    ensures { result ≡ size_bits size }
{
    match size {
        Size::S8 => 8,
        Size::S16 => 16,
        Size::S32 => 32,
        Size::S64 => 64,
    }
}

fn put_operand(out: &mut [u8], at: usize, width: Width, source: Source, i: Insn) -> usize
    ensures { Says out at result (operand_of width source i) }
{
    match source {
        Source::Imm => put_form(out, at, b" ~", &[extended(i.imm)]),
        Source::Reg => put_form(out, at, b" %#", &[letter_of(width), u64::from(i.src)]),
    }
}

// dst, an operator, the second operand.
pub fn put_binary(
    out: &mut [u8],
    at: usize,
    width: Width,
    source: Source,
    i: Insn,
    operator: &[u8],
) -> usize
    ensures { Says out at result (binary width source i (given operator)) }
{
    let next = put_form(out, at, b"%# ", &[letter_of(width), u64::from(i.dst)]);
    let next = put_text(out, next, operator);
    put_operand(out, next, width, source, i)
}

#[tactic(auto, unfolding(crate::specs::Statements::neg_text))]
pub fn put_neg(out: &mut [u8], at: usize, width: Width, i: Insn) -> usize
    ensures { Says out at result (neg_text width i) }
{
    let letter = letter_of(width);
    let dst = u64::from(i.dst);
    put_form(out, at, b"%# = -%#", &[letter, dst, letter, dst])
}

#[tactic(auto, unfolding(crate::specs::Statements::abs_text))]
pub fn put_ld_abs(out: &mut [u8], at: usize, size: Size, i: Insn) -> usize
    ensures { Says out at result (abs_text size i) }
{
    put_form(
        out,
        at,
        b"r0 = *(u# *)skb[~]",
        &[size_bits(size), extended(i.imm)],
    )
}

#[tactic(auto, unfolding(crate::specs::Statements::ind_text))]
pub fn put_ld_ind(out: &mut [u8], at: usize, size: Size, i: Insn) -> usize
    ensures { Says out at result (ind_text size i) }
{
    let bits = size_bits(size);
    put_form(
        out,
        at,
        b"r0 = *(u# *)skb[r# _]",
        &[bits, u64::from(i.src), extended(i.imm)],
    )
}

#[tactic(auto, unfolding(crate::specs::Statements::load_text))]
pub fn put_ld_reg(out: &mut [u8], at: usize, size: Size, i: Insn) -> usize
    ensures { Says out at result (load_text size i) }
{
    let bits = size_bits(size);
    let off = extended(i.off);
    put_form(
        out,
        at,
        b"r# = *(u# *)(r# _)",
        &[u64::from(i.dst), bits, u64::from(i.src), off],
    )
}

#[tactic(auto, unfolding(crate::specs::Statements::store_imm_text))]
pub fn put_st_imm(out: &mut [u8], at: usize, size: Size, i: Insn) -> usize
    ensures { Says out at result (store_imm_text size i) }
{
    let bits = size_bits(size);
    let off = extended(i.off);
    put_form(
        out,
        at,
        b"*(u# *)(r# _) = ~",
        &[bits, u64::from(i.dst), off, extended(i.imm)],
    )
}

#[tactic(auto, unfolding(crate::specs::Statements::store_reg_text))]
pub fn put_st_reg(out: &mut [u8], at: usize, size: Size, i: Insn) -> usize
    ensures { Says out at result (store_reg_text size i) }
{
    let bits = size_bits(size);
    let off = extended(i.off);
    put_form(
        out,
        at,
        b"*(u# *)(r# _) = r#",
        &[bits, u64::from(i.dst), off, u64::from(i.src)],
    )
}

// `high` is the imm of the second slot.
#[tactic(auto, unfolding(crate::specs::Statements::wide_text))]
pub fn put_ld_dw_imm(out: &mut [u8], at: usize, i: Insn, high: u32) -> usize
    ensures { Says out at result (wide_text i high) }
{
    let value = u64::from(i.imm) + 0x1_0000_0000 * u64::from(high);
    put_form(out, at, b"r# = 0x$ ll", &[u64::from(i.dst), value])
}

#[tactic(auto, unfolding(crate::specs::Statements::le_text))]
pub fn put_le(out: &mut [u8], at: usize, i: Insn) -> usize
    ensures { Says out at result (le_text i) }
{
    let dst = u64::from(i.dst);
    put_form(out, at, b"r# = le~ r#", &[dst, extended(i.imm), dst])
}

#[tactic(auto, unfolding(crate::specs::Statements::be_text))]
pub fn put_be(out: &mut [u8], at: usize, i: Insn) -> usize
    ensures { Says out at result (be_text i) }
{
    let dst = u64::from(i.dst);
    put_form(out, at, b"r# = be~ r#", &[dst, extended(i.imm), dst])
}

#[tactic(auto, unfolding(crate::specs::Statements::goto_text))]
pub fn put_ja(out: &mut [u8], at: usize, i: Insn) -> usize
    ensures { Says out at result (goto_text i) }
{
    put_form(out, at, b"goto ^", &[extended(i.off)])
}

// A helper by its id, or a local call, counted from the slot behind.
#[tactic(auto, unfolding(crate::specs::Statements::call_text))]
pub fn put_call(out: &mut [u8], at: usize, i: Insn) -> usize
    ensures { Says out at result (call_text i) }
{
    if i.src == 0 {
        return put_form(out, at, b"call #", &[u64::from(i.imm)]);
    }
    put_form(out, at, b"call pc^", &[extended(i.imm)])
}

// An opcode that is not translated: what the slot holds.
#[tactic(auto, unfolding(crate::specs::Statements::plain_text))]
pub fn put_plain(out: &mut [u8], at: usize, i: Insn) -> usize
    ensures { Says out at result (plain_text i) }
{
    let fields = [
        u64::from(i.opc),
        u64::from(i.dst),
        u64::from(i.src),
        extended(i.off),
        extended(i.imm),
    ];
    put_form(out, at, b"opcode 0x@, dst #, src #, off ~, imm ~", &fields)
}
