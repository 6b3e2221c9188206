// Multiplication, division and modulo: `emit_muldivmod` of the Rust, in its parts. RDX:RAX is what the machine multiplies into and
// divides; the second operand goes to RCX.
ghost use Rattle.std.specs.Prelude.{◌≡◌, ◌<◌, ◌^◌};
ghost use Rattle.x86.specs.Code.{size};
ghost use Rattle.x86.specs.Fill.{blanks};
ghost use Rattle.x86_emit.specs.Lent.{Wrote, Fits, FitAll};
ghost use Rattle.jit.specs.MulDivMod.{by_zero, saved, restored, saves, restores, operate, operated, from_rax};
ghost use Rattle.jit.specs.MulDivMod.{tested, guard, div_by_zero, mul_div_mod_imm, mul_div_mod_reg};
ghost use Rattle.ebpf.specs.declared.kind.MulOp.TheVariants.{Div, Mod};
ghost use Rattle.jit.specs.Slots.{mul_div_mod_code, cleared, slot_code};
ghost use Rattle.ebpf.specs.declared.kind.Kind.TheVariants.{MulDivMod};
ghost use Rattle.jit_recording.specs.Lent.{Emits, Room};

use base::{Position, Slot, Width};
use ebpf::insn::Insn;
use ebpf::kind::{MulOp, Source};
use jit::Mode;
use jit_recording::emission::JumpTables;
use jit_recording::{constant, mode, register};
use x86::{GROUP3, GROUP3_DIV, GROUP3_MUL, JE, JNE, MOV, RAX, RCX, RDX, TEST, XOR};
use x86_emit::{alu, jump};

// A register in use is saved, unless it is dst.
fn emit_saved(code: &mut [u8], at: Position, dst: u8, r: u8) -> Position
    requires { Fits code at × (r < 16) }
    ensures { Wrote code at result (blanks (saved dst r)) }
{
    if dst == r {
        return at;
    }
    alu::emit_push(code, at, r)
}

// .. and comes back; where it holds the result, dst gets that first.
fn emit_restored(code: &mut [u8], at: Position, dst: u8, r: u8, res: bool) -> Position
    requires { FitAll code at (restored dst r res) × ((dst < 16) × (r < 16)) }
    ensures { Wrote code at result (blanks (restored dst r res)) }
{
    if dst == r {
        return at;
    }
    if res {
        let next = alu::emit_alu(code, at, Width::W64, MOV, r, dst);
        return alu::emit_pop(code, next, r);
    }
    alu::emit_pop(code, at, r)
}

fn emit_saves(code: &mut [u8], at: Position, dst: u8) -> Position
    requires { FitAll code at (saves dst) }
    ensures { Wrote code at result (blanks (saves dst)) }
{
    let next = emit_saved(code, at, dst, RAX);
    emit_saved(code, next, dst, RDX)
}

fn from_rax(op: MulOp) -> bool
    ensures { result ≡ from_rax op }
{
    !matches!(op, MulOp::Mod)
}

fn emit_restores(code: &mut [u8], at: Position, op: MulOp, dst: u8) -> Position
    requires { FitAll code at (restores op dst) × (dst < 16) }
    ensures { Wrote code at result (blanks (restores op dst)) }
{
    let result = from_rax(op);
    let next = emit_restored(code, at, dst, RDX, !result);
    emit_restored(code, next, dst, RAX, result)
}

fn emit_operate(code: &mut [u8], at: Position, op: MulOp, width: Width) -> Position
    requires { FitAll code at (operate op width) }
    ensures { Wrote code at result (blanks (operate op width)) }
{
    match op {
        MulOp::Mul => alu::emit_alu_ext(code, at, width, GROUP3, GROUP3_MUL, RCX),
        MulOp::Div | MulOp::Mod => {
            let cleared = alu::emit_alu(code, at, Width::W32, XOR, RDX, RDX);
            alu::emit_alu_ext(code, cleared, width, GROUP3, GROUP3_DIV, RCX)
        }
    }
}

// The operation on dst, once the second operand is in RCX.
fn emit_operated(code: &mut [u8], at: Position, op: MulOp, width: Width, dst: u8) -> Position
    requires { FitAll code at (operated op width dst) × (dst < 16) }
    ensures { Wrote code at result (blanks (operated op width dst)) }
{
    let ready = alu::emit_alu(code, at, Width::W64, MOV, dst, RAX);
    let done = emit_operate(code, ready, op, width);
    emit_restores(code, done, op, dst)
}

// MUL and DIV by the immediate 0 clear dst; MOD by it does nothing.
fn emit_by_zero(code: &mut [u8], at: Position, op: MulOp, dst: u8) -> Position
    requires { Fits code at × (dst < 16) }
    ensures { Wrote code at result (blanks (by_zero op dst)) }
{
    match op {
        MulOp::Mul | MulOp::Div => alu::emit_alu(code, at, Width::W32, XOR, dst, dst),
        MulOp::Mod => at,
    }
}

pub fn emit_muldivmod_imm(
    code: &mut [u8],
    at: Position,
    mode: Mode,
    op: MulOp,
    width: Width,
    dst: u8,
    imm: u32,
) -> Position
    requires { FitAll code at (mul_div_mod_imm mode op width dst imm) × (dst < 16) }
    ensures { Wrote code at result (blanks (mul_div_mod_imm mode op width dst imm)) }
{
    if imm == 0 {
        return emit_by_zero(code, at, op, dst);
    }
    let saved = emit_saves(code, at, dst);
    let loaded = constant::emit_load_signed(code, saved, mode, RCX, imm);
    emit_operated(code, loaded, op, width, dst)
}

// The slot's number goes to RCX, and the divisor is tested.
fn emit_tested(
    code: &mut [u8],
    at: Position,
    mode: Mode,
    slot: Slot,
    width: Width,
    src: u8,
) -> Position
    requires { FitAll code at (tested mode slot.number width src) × ((src < 16) × (slot.number < 2 ^ 16)) }
    ensures { Wrote code at result (blanks (tested mode slot.number width src)) }
{
    let numbered = constant::emit_load_signed(code, at, mode, RCX, slot.number as u32);
    alu::emit_alu(code, numbered, width, TEST, src, src)
}

// How far a divisor that is not zero skips.
fn skip_of(slot: Slot, dst: u8) -> u32
    requires { dst < 16 }
    ensures { result ≡ size (div_by_zero slot.number dst) }
{
    if dst < 8 { 7 } else { 8 }
}

// DIV: no division by zero skips the next two instructions; they clear dst and go to the next slot.
fn emit_div_guard(
    code: &mut [u8],
    at: Position,
    jumps: &mut JumpTables<'_>,
    mode: Mode,
    slot: Slot,
    width: Width,
    src: u8,
    dst: u8,
) -> Position
    requires room { Room code at jumps (guard mode Div slot.number width src dst) }
    requires src_bound { (src < 16) × ((dst < 16) × (slot.number < 2 ^ 16)) }
    ensures { Emits code at result jumps slot (guard mode Div slot.number width src dst) }
{
    let checked = emit_tested(code, at, mode, slot, width, src);
    let branched = jump::emit_jcc(code, checked, JNE, skip_of(slot, dst));
    let cleared = alu::emit_alu(code, branched, Width::W32, XOR, dst, dst);
    let next = jump::emit_jmp(code, cleared, 0);
    jumps.record_jump(next, slot.number as u32 + 1, jit::PLAIN, slot);
    next
}

// MOD: a zero divisor goes to the next slot at once.
fn emit_mod_guard(
    code: &mut [u8],
    at: Position,
    jumps: &mut JumpTables<'_>,
    mode: Mode,
    slot: Slot,
    width: Width,
    src: u8,
    dst: u8,
) -> Position
    requires room { Room code at jumps (guard mode Mod slot.number width src dst) }
    requires src_bound { (src < 16) × (slot.number < 2 ^ 16) }
    ensures { Emits code at result jumps slot (guard mode Mod slot.number width src dst) }
{
    let checked = emit_tested(code, at, mode, slot, width, src);
    let next = jump::emit_jcc(code, checked, JE, 0);
    jumps.record_jump(next, slot.number as u32 + 1, jit::CONDITIONAL, slot);
    next
}

// The divisor of DIV and MOD is tested; MUL has none.
fn emit_guard(
    code: &mut [u8],
    at: Position,
    jumps: &mut JumpTables<'_>,
    mode: Mode,
    op: MulOp,
    slot: Slot,
    width: Width,
    src: u8,
    dst: u8,
) -> Position
    requires room { Room code at jumps (guard mode op slot.number width src dst) }
    requires src_bound { (src < 16) × ((dst < 16) × (slot.number < 2 ^ 16)) }
    ensures { Emits code at result jumps slot (guard mode op slot.number width src dst) }
{
    match op {
        MulOp::Mul => at,
        MulOp::Div => emit_div_guard(code, at, jumps, mode, slot, width, src, dst),
        MulOp::Mod => emit_mod_guard(code, at, jumps, mode, slot, width, src, dst),
    }
}

pub fn emit_muldivmod_reg(
    code: &mut [u8],
    at: Position,
    jumps: &mut JumpTables<'_>,
    mode: Mode,
    op: MulOp,
    slot: Slot,
    width: Width,
    src: u8,
    dst: u8,
) -> Position
    requires room { Room code at jumps (mul_div_mod_reg mode op slot.number width src dst) }
    requires src_bound { (src < 16) × ((dst < 16) × (slot.number < 2 ^ 16)) }
    ensures { Emits code at result jumps slot (mul_div_mod_reg mode op slot.number width src dst) }
{
    let guarded = emit_guard(code, at, jumps, mode, op, slot, width, src, dst);
    let saved = emit_saves(code, guarded, dst);
    let loaded = alu::emit_alu(code, saved, Width::W64, MOV, src, RCX);
    emit_operated(code, loaded, op, width, dst)
}

// All that the Rust has for the slot.
fn emit_operation(
    code: &mut [u8],
    at: Position,
    jumps: &mut JumpTables<'_>,
    mode: Mode,
    op: MulOp,
    width: Width,
    source: Source,
    slot: Slot,
    i: Insn,
) -> Position
    requires room { Room code at jumps (mul_div_mod_code mode op width source slot.number i) }
    requires dst_bound { (i.dst < 11) × ((i.src < 11) × (slot.number < 2 ^ 16)) }
    ensures { Emits code at result jumps slot (mul_div_mod_code mode op width source slot.number i) }
{
    let dst = register::map_register(i.dst);
    match source {
        Source::Imm => emit_muldivmod_imm(code, at, mode, op, width, dst, i.imm),
        Source::Reg => emit_muldivmod_reg(
            code,
            at,
            jumps,
            mode,
            op,
            slot,
            width,
            register::map_register(i.src),
            dst,
        ),
    }
}

// Standard mode: a MOD32 that may leave dst as it is leaves its lower half.
fn emit_cleared(
    code: &mut [u8],
    at: Position,
    mode: Mode,
    op: MulOp,
    width: Width,
    source: Source,
    i: Insn,
) -> Position
    requires { Fits code at × (i.dst < 11) }
    ensures { Wrote code at result (blanks (cleared mode op width source i)) }
{
    if mode::clears(mode, op, width, source, i.imm) {
        let dst = register::map_register(i.dst);
        return alu::emit_alu(code, at, Width::W32, MOV, dst, dst);
    }
    at
}

pub fn emit_muldivmod(
    code: &mut [u8],
    at: Position,
    jumps: &mut JumpTables<'_>,
    mode: Mode,
    op: MulOp,
    width: Width,
    source: Source,
    slot: Slot,
    i: Insn,
) -> Position
    requires room { Room code at jumps (slot_code mode (MulDivMod op width source) slot.number i 0) }
    requires dst_bound { (i.dst < 11) × ((i.src < 11) × (slot.number < 2 ^ 16)) }
    ensures { Emits code at result jumps slot (slot_code mode (MulDivMod op width source) slot.number i 0) }
{
    let ready = emit_cleared(code, at, mode, op, width, source, i);
    emit_operation(code, ready, jumps, mode, op, width, source, slot, i)
}
