// The length of each kind of slot: the sums that `emit_slot` would come to, found by the opcode's entry in the table as it does.
ghost use Rattle.std.specs.Prelude.{◌≡◌, ℕ, ◌+◌, ◌^◌, ◌<◌, ◌≤◌, length};
ghost use Rattle.x86.specs.Code.{size};
ghost use Rattle.x86.specs.Encode.{encode_plain};
ghost use Rattle.x86.specs.Instr as x86;
ghost use Rattle.jit.specs.MulDivMod.{Code, when, by_zero, tested, guard, computed};
ghost use Rattle.jit.specs.Slots.{shift_code, mov_code, mul_div_mod_code, lower_half, cleared, truncated, swap, call_code};
ghost use Rattle.jit_walk.specs.Lent.{SlotRead, insn_of};
ghost use Rattle.jit_lengths.specs.Lengths.{operands, kept, Ordinary, Sized, AlwaysSized, SizedBy};
ghost use Rattle.ebpf.specs.Opcode.{kind_of};
ghost use Rattle.ebpf.specs.declared.kind.ShiftOp.{ShiftOp};
ghost use Rattle.ebpf.specs.declared.kind.Kind.TheVariants.{LdAbs, LdInd, LdReg, StImm, StReg, Neg, MulDivMod};

use crate::instruction;
use base::{Size, Slot, Width};
use ebpf::insn::Insn;
use ebpf::kind::{MulOp, Source};
use ebpf::{insn, kind};
use jit::Mode;
use jit_recording::{mode, register};
use x86::{R10, R11, RAX, RCX, RDX};

// Arithmetic, and the comparison ahead of a jump.
pub fn operands_length(width: Width, source: Source, i: Insn) -> usize
    requires { (i.dst < 11) × (i.src < 11) }
    ensures { ((o : x86.Alu) → result ≡ length (encode_plain (operands o width source i))) × (result ≤ 17) }
{
    let dst = register::map_register(i.dst);
    match source {
        Source::Imm => instruction::rexed_length(width, 0, dst, 6),
        Source::Reg => instruction::rexed_length(width, register::map_register(i.src), dst, 2),
    }
}

fn shift_length(width: Width, source: Source, i: Insn) -> usize
    requires { i.dst < 11 }
    ensures { ((o : ShiftOp) → result ≡ size (shift_code o width source i)) × (result ≤ 20) }
{
    let dst = register::map_register(i.dst);
    match source {
        Source::Imm => instruction::rexed_length(width, 0, dst, 3),
        Source::Reg => 3 + instruction::rexed_length(width, 0, dst, 2),
    }
}

fn mov_length(mode: Mode, width: Width, source: Source, i: Insn) -> usize
    requires { (i.dst < 11) × (i.src < 11) }
    ensures { (result ≡ size (mov_code mode width source i)) × (result ≤ 17) }
{
    match source {
        Source::Imm => {
            let dst = register::map_register(i.dst);
            match width {
                Width::W32 => instruction::rexed_length(Width::W32, 0, dst, 6),
                Width::W64 => instruction::load_signed_length(mode, dst, i.imm),
            }
        }
        Source::Reg => match mode::copy_width(mode, width) {
            Width::W32 => {
                let src = register::map_register(i.src);
                instruction::rexed_length(Width::W32, src, register::map_register(i.dst), 2)
            }
            Width::W64 => 3,
        },
    }
}

// The lower half of a register, its upper half cleared.
fn lower_length(dst: u8) -> usize
    requires { dst < 16 }
    ensures { (result ≡ size (lower_half dst)) × (result ≤ 17) }
{
    instruction::rexed_length(Width::W32, dst, dst, 2)
}

fn truncated_length(dst: u8, bits: u32) -> usize
    requires { dst < 16 }
    ensures { (result ≡ size (truncated dst bits)) × (result ≤ 17) }
{
    match bits {
        16 => instruction::rexed_length(Width::W32, 0, dst, 6),
        32 => lower_length(dst),
        _ => 0,
    }
}

// LE, which has code in standard mode alone.
pub fn le_length(mode: Mode, dst: u8, bits: u32) -> usize
    requires { dst < 16 }
    ensures { (result ≡ size (when mode.standard (truncated dst bits))) × (result ≤ 17) }
{
    if mode.standard {
        truncated_length(dst, bits)
    } else {
        0
    }
}

// BE
pub fn swap_length(dst: u8, bits: u32) -> usize
    requires { dst < 16 }
    ensures { (result ≡ size (swap dst bits)) × (result ≤ 40) }
{
    if bits == 16 {
        1 + instruction::rexed_length(Width::W32, 0, dst, 3)
            + instruction::rexed_length(Width::W32, 0, dst, 6)
    } else if bits == 32 {
        instruction::rexed_length(Width::W32, 0, dst, 2)
    } else {
        3
    }
}

// RAX and RDX, saved and restored, and the result that goes to dst, from RAX or from RDX.
fn kept_length(from_rax: bool, dst: u8) -> usize
    ensures { (result ≡ kept from_rax dst) × (result ≤ 7) }
{
    if dst == RAX {
        if from_rax { 2 } else { 5 }
    } else if dst == RDX {
        if from_rax { 5 } else { 2 }
    } else {
        7
    }
}

// The operation on dst, and what is saved for it; what brings the second operand to RCX comes on top.
fn computed_length(op: MulOp, width: Width, dst: u8) -> usize
    ensures { ((operand : Code) → result + size operand ≡ size (computed op width operand dst)) × (result ≤ 15) }
{
    let w = x86_emit::alu::wide(width) as usize;
    match op {
        MulOp::Mul => kept_length(true, dst) + (5 + w),
        MulOp::Div => kept_length(true, dst) + (7 + w),
        MulOp::Mod => kept_length(false, dst) + (7 + w),
    }
}

fn by_zero_length(op: MulOp, dst: u8) -> usize
    requires { dst < 16 }
    ensures { (result ≡ size (by_zero op dst)) × (result ≤ 17) }
{
    match op {
        MulOp::Mul | MulOp::Div => instruction::rexed_length(Width::W32, dst, dst, 2),
        MulOp::Mod => 0,
    }
}

// The slot's number, which is never negative, and the divisor's test.
fn tested_length(mode: Mode, width: Width, src: u8) -> usize
    requires { src < 16 }
    ensures { ((slot : ℕ) → slot < 2 ^ 16 → result ≡ size (tested mode slot width src)) × (result ≤ 24) }
{
    let test = instruction::rexed_length(width, src, src, 2);
    if mode.compact { 5 + test } else { 7 + test }
}

// The test and its jump; for DIV also the cleared dst and the jump behind it.
fn guard_length(mode: Mode, op: MulOp, width: Width, src: u8, dst: u8) -> usize
    requires { (src < 16) × (dst < 16) }
    ensures { ((slot : ℕ) → slot < 2 ^ 16 → result ≡ size (guard mode op slot width src dst)) × (result ≤ 60) }
{
    match op {
        MulOp::Mul => 0,
        MulOp::Div => {
            let tested = tested_length(mode, width, src);
            11 + tested + instruction::rexed_length(Width::W32, dst, dst, 2)
        }
        MulOp::Mod => 6 + tested_length(mode, width, src),
    }
}

// Multiplication, division and modulo themselves.
fn operation_length(mode: Mode, op: MulOp, width: Width, source: Source, i: Insn) -> usize
    requires { (i.dst < 11) × (i.src < 11) }
    ensures { ((slot : ℕ) → slot < 2 ^ 16 → result ≡ size (mul_div_mod_code mode op width source slot i)) × (result ≤ 90) }
{
    let dst = register::map_register(i.dst);
    match source {
        Source::Imm => {
            if i.imm == 0 {
                return by_zero_length(op, dst);
            }
            computed_length(op, width, dst) + instruction::load_signed_length(mode, RCX, i.imm)
        }
        Source::Reg => {
            let guarded = guard_length(mode, op, width, register::map_register(i.src), dst);
            guarded + (computed_length(op, width, dst) + 3)
        }
    }
}

// What standard mode puts ahead of them.
fn cleared_length(mode: Mode, op: MulOp, width: Width, source: Source, i: Insn) -> usize
    requires { i.dst < 11 }
    ensures { (result ≡ size (cleared mode op width source i)) × (result ≤ 17) }
{
    if mode::clears(mode, op, width, source, i.imm) {
        return lower_length(register::map_register(i.dst));
    }
    0
}

fn muldivmod_length(mode: Mode, op: MulOp, width: Width, source: Source, i: Insn) -> usize
    requires { (i.dst < 11) × (i.src < 11) }
    ensures { Sized mode (MulDivMod op width source) i result × (result ≤ 107) }
{
    cleared_length(mode, op, width, source, i) + operation_length(mode, op, width, source, i)
}

// A helper's address is loaded; a call within the program saves four registers.
pub fn call_length(mode: Mode, i: Insn, value: u64) -> usize
    ensures { ((slot : ℕ) → result ≡ size (call_code mode slot i value)) × (result ≤ 19) }
{
    if i.src == 0 {
        return 5 + instruction::load_imm_length(mode, RAX, value);
    }
    19
}

// Loads and stores, as the handlers of the same names write them.
fn ld_abs_length(size: Size, i: Insn) -> usize
    ensures { AlwaysSized (LdAbs size) i result × (result ≤ 8) }
{
    instruction::load_length(size, R10, RAX, i.imm)
}

fn ld_ind_length(size: Size, i: Insn) -> usize
    ensures { AlwaysSized (LdInd size) i result × (result ≤ 14) }
{
    6 + instruction::load_length(size, R11, RAX, i.imm)
}

fn ld_reg_length(size: Size, i: Insn) -> usize
    requires { (i.dst < 11) × (i.src < 11) }
    ensures { AlwaysSized (LdReg size) i result × (result ≤ 8) }
{
    let dst = register::map_register(i.dst);
    let src = register::map_register(i.src);
    instruction::load_length(size, src, dst, i.off)
}

fn st_imm_length(size: Size, i: Insn) -> usize
    requires { i.dst < 11 }
    ensures { AlwaysSized (StImm size) i result × (result ≤ 12) }
{
    instruction::store_imm_length(size, register::map_register(i.dst), i.off)
}

fn st_reg_length(size: Size, i: Insn) -> usize
    requires { (i.dst < 11) × (i.src < 11) }
    ensures { AlwaysSized (StReg size) i result × (result ≤ 8) }
{
    let dst = register::map_register(i.dst);
    let src = register::map_register(i.src);
    instruction::store_length(size, src, dst, i.off)
}

fn neg_length(width: Width, i: Insn) -> usize
    requires { i.dst < 11 }
    ensures { AlwaysSized (Neg width) i result × (result ≤ 17) }
{
    instruction::rexed_length(width, 0, register::map_register(i.dst), 2)
}

// A slot that is translated whatever its fields hold, and lists no jump but one to the next slot; `number` is its opcode's entry in the
// table.
pub fn slot_length(mode: Mode, number: u8, opc: u8, prog: &[u8], slot: Slot) -> usize
    requires { SlotRead prog slot opc number × Ordinary number }
    ensures { SizedBy mode (kind_of opc) (insn_of prog slot) result × (result ≤ 107) }
{
    match number {
        kind::KIND_MULDIVMOD => muldivmod_length(
            mode,
            kind::mul_of(opc),
            kind::width_of(opc),
            kind::source_of(opc),
            insn::insn_at(prog, slot),
        ),
        kind::KIND_LD_ABS => ld_abs_length(kind::size_of(opc), insn::insn_at(prog, slot)),
        kind::KIND_LD_IND => ld_ind_length(kind::size_of(opc), insn::insn_at(prog, slot)),
        kind::KIND_LD_REG => ld_reg_length(kind::size_of(opc), insn::insn_at(prog, slot)),
        kind::KIND_ST_IMM => st_imm_length(kind::size_of(opc), insn::insn_at(prog, slot)),
        kind::KIND_ST_REG => st_reg_length(kind::size_of(opc), insn::insn_at(prog, slot)),
        kind::KIND_ALU => operands_length(
            kind::width_of(opc),
            kind::source_of(opc),
            insn::insn_at(prog, slot),
        ),
        kind::KIND_SHIFT => shift_length(
            kind::width_of(opc),
            kind::source_of(opc),
            insn::insn_at(prog, slot),
        ),
        kind::KIND_NEG => neg_length(kind::width_of(opc), insn::insn_at(prog, slot)),
        kind::KIND_MOV => mov_length(
            mode,
            kind::width_of(opc),
            kind::source_of(opc),
            insn::insn_at(prog, slot),
        ),
        kind::KIND_EXIT => 1,
        _ => 0,
    }
}
