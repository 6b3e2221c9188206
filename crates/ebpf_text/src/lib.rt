// A slot of the program in assembler, as llvm-objdump writes eBPF: `r0 = *(u8 *)(r1 + 12)`, `if r1 == 5 goto +3`. Here its opcode picks the
// statement and the operator; `ebpf_statements` has the forms. specs/Assembler.antt says each text.

#![tactic(auto)]

ghost use Rattle.std.specs.Prelude.{◌≡◌};
ghost use Rattle.text.specs.Lent.{Says, given};
ghost use Rattle.ebpf_text.specs.Assembler.{alu_text, shift_text, mul_text, condition_text, jump_text, kind_text, lookup_text, high_of, slot_text};

use base::Width;
use ebpf::constants::INSN_SIZE;
use ebpf::insn::Insn;
use ebpf::kind::{AluOp, Condition, Kind, Lookup, MulOp, ShiftOp, Source, kind_of};
use ebpf_fields::fields_at;
use ebpf_statements::put_binary;
use text::form::put_form;
use text::number::extended;
use text::text::put_text;

fn alu_operator(op: AluOp) -> &'static [u8]
    ensures { result.now ≡ alu_text op }
{
    match op {
        AluOp::Add => b"+=",
        AluOp::Sub => b"-=",
        AluOp::Or => b"|=",
        AluOp::And => b"&=",
        AluOp::Xor => b"^=",
    }
}

fn shift_operator(op: ShiftOp) -> &'static [u8]
    ensures { result.now ≡ shift_text op }
{
    match op {
        ShiftOp::Lsh => b"<<=",
        ShiftOp::Rsh => b">>=",
        ShiftOp::Arsh => b"s>>=",
    }
}

fn mul_operator(op: MulOp) -> &'static [u8]
    ensures { result.now ≡ mul_text op }
{
    match op {
        MulOp::Mul => b"*=",
        MulOp::Div => b"/=",
        MulOp::Mod => b"%=",
    }
}

fn comparison(c: Condition) -> &'static [u8]
    ensures { result.now ≡ condition_text c }
{
    match c {
        Condition::Jeq => b"==",
        Condition::Jgt => b">",
        Condition::Jge => b">=",
        Condition::Jset => b"&",
        Condition::Jne => b"!=",
        Condition::Jsgt => b"s>",
        Condition::Jsge => b"s>=",
        Condition::Jlt => b"<",
        Condition::Jle => b"<=",
        Condition::Jslt => b"s<",
        Condition::Jsle => b"s<=",
    }
}

fn put_jump(out: &mut [u8], at: usize, c: Condition, width: Width, source: Source, i: Insn) -> usize
    ensures { Says out at result (jump_text c width source i) }
{
    let next = put_text(out, at, b"if ");
    let next = put_binary(out, next, width, source, i, comparison(c));
    put_form(out, next, b" goto ^", &[extended(i.off)])
}

fn put_kind(out: &mut [u8], at: usize, kind: Kind, i: Insn, high: u32) -> usize
    ensures { Says out at result (kind_text kind i high) }
{
    match kind {
        Kind::LdAbs(size) => ebpf_statements::put_ld_abs(out, at, size, i),
        Kind::LdInd(size) => ebpf_statements::put_ld_ind(out, at, size, i),
        Kind::LdDwImm => ebpf_statements::put_ld_dw_imm(out, at, i, high),
        Kind::LdReg(size) => ebpf_statements::put_ld_reg(out, at, size, i),
        Kind::StImm(size) => ebpf_statements::put_st_imm(out, at, size, i),
        Kind::StReg(size) => ebpf_statements::put_st_reg(out, at, size, i),
        Kind::Alu(op, width, source) => put_binary(out, at, width, source, i, alu_operator(op)),
        Kind::Shift(op, width, source) => put_binary(out, at, width, source, i, shift_operator(op)),
        Kind::Neg(width) => ebpf_statements::put_neg(out, at, width, i),
        Kind::MulDivMod(op, width, source) => put_binary(
            out,
            at,
            width,
            source,
            i,
            mul_operator(op),
        ),
        Kind::Mov(width, source) => put_binary(out, at, width, source, i, b"="),
        Kind::Le => ebpf_statements::put_le(out, at, i),
        Kind::Be => ebpf_statements::put_be(out, at, i),
        Kind::Ja => ebpf_statements::put_ja(out, at, i),
        Kind::Jump(c, width, source) => put_jump(out, at, c, width, source, i),
        Kind::Call => ebpf_statements::put_call(out, at, i),
        Kind::Exit => put_text(out, at, b"exit"),
    }
}

fn put_lookup(out: &mut [u8], at: usize, found: Lookup, i: Insn, high: u32) -> usize
    ensures { Says out at result (lookup_text found i high) }
{
    match found {
        Lookup::Known(kind) => put_kind(out, at, kind, i, high),
        Lookup::Unimplemented | Lookup::Unknown => ebpf_statements::put_plain(out, at, i),
    }
}

// The imm of the next slot, where there is one.
#[tactic(auto, unfolding(crate::specs::Assembler::high_of))]
fn high_of(prog: &[u8], slot: usize) -> u32
    ensures { result ≡ high_of (given prog) slot }
{
    if slot < prog.len() / INSN_SIZE {
        return fields_at(prog, slot + 1).imm;
    }
    0
}

// The slot in assembler. A slot whose bytes are not all there reads as zeros.
#[tactic(auto, unfolding(crate::specs::Assembler::slot_text))]
pub fn put_slot(out: &mut [u8], at: usize, prog: &[u8], slot: usize) -> usize
    ensures { Says out at result (slot_text (given prog) slot) }
{
    let i = fields_at(prog, slot);
    put_lookup(out, at, kind_of(i.opc), i, high_of(prog, slot))
}
