// Classes JMP and JMP32.
ghost use Rattle.std.specs.Prelude.{◌≡◌, ◌+◌, ◌<◌, ◌^◌};
ghost use Rattle.base.specs.Pick.{pick};
ghost use Rattle.ebpf.specs.Kinds.{condition_of};
ghost use Rattle.ebpf.specs.declared.kind.Kind.TheVariants.{Ja};
ghost use Rattle.x86.specs.Instr as x86;
ghost use Rattle.x86.specs.Fill.{blanks};
ghost use Rattle.x86.specs.Encode.{cond_number, encode_plain};
ghost use Rattle.x86_emit.specs.Lent.{Wrote, Fits, FitAll};
ghost use Rattle.jit.specs.Modes.{rust};
ghost use Rattle.jit.specs.Slots.{slot_code, cond_of, test_of, compare, jump_code, helper_call, local_call, call_code};
ghost use Rattle.jit_slots.specs.JumpParts.{call_saves, call_restores};
ghost use Rattle.jit_recording.specs.Lent.{Emits, Room};

use base::{Position, Slot, Width};
use ebpf::constants::{BPF_ALU_OP_MASK, BPF_JSET};
use ebpf::insn::Insn;
use ebpf::kind::Source;
use jit::Mode;
use jit_recording::emission::JumpTables;
use jit_recording::{constant, emission, register};
use x86::{
    CMP, GROUP1, GROUP1_CMP, GROUP3, GROUP3_TEST, JA, JAE, JB, JBE, JE, JG, JGE, JL, JLE, JNE, MOV,
    R9, R13, R14, R15, RAX, RBX, RCX, TEST,
};
use x86_emit::{alu, jump};

pub fn emit_ja(
    code: &mut [u8],
    at: Position,
    jumps: &mut JumpTables<'_>,
    slot: Slot,
    i: Insn,
) -> Position
    requires room { Room code at jumps (slot_code rust Ja slot.number i 0) }
    requires number_bound { slot.number < 2 ^ 16 }
    ensures { Emits code at result jumps slot (slot_code rust Ja slot.number i 0) }
{
    let target = emission::target_of(slot, i.off);
    let next = jump::emit_jmp(code, at, 0);
    jumps.record_jump(next, target, jit::PLAIN, slot);
    next
}

// The second byte of Jcc's opcode, by the upper half of the slot's (RFC 9669, section 4.3), in sixteen arms as in alu.rt.
fn condition_byte(opc: u8) -> u8
    ensures { result ≡ 0x80 + cond_number (cond_of (condition_of opc)) }
{
    match opc / 16 {
        0x0 => JLE,
        0x1 => JE, // JEQ
        0x2 => JA, // JGT
        0x3 => JAE, // JGE
        0x4 => JNE, // JSET
        0x5 => JNE, // JNE
        0x6 => JG, // JSGT
        0x7 => JGE, // JSGE
        0x8 => JLE,
        0x9 => JLE,
        0xa => JB, // JLT
        0xb => JBE, // JLE
        0xc => JL, // JSLT
        0xd => JLE, // JSLE
        0xe => JLE,
        _ => JLE,
    }
}

// JSET tests, the others compare.
fn is_test(opc: u8) -> bool
    ensures { test_of (condition_of opc) ≡ pick result x86.TEST x86.CMP }
{
    opc & BPF_ALU_OP_MASK == BPF_JSET
}

fn emit_compare(code: &mut [u8], at: Position, width: Width, source: Source, i: Insn) -> Position
    requires { Fits code at × ((i.dst < 11) × (i.src < 11)) }
    ensures { Wrote code at result (encode_plain (compare (condition_of i.opc) width source i)) }
{
    let dst = register::map_register(i.dst);
    let test = is_test(i.opc);
    match source {
        Source::Imm => {
            if test {
                return alu::emit_alu_imm32(code, at, width, GROUP3, GROUP3_TEST, dst, i.imm);
            }
            alu::emit_alu_imm32(code, at, width, GROUP1, GROUP1_CMP, dst, i.imm)
        }
        Source::Reg => {
            let src = register::map_register(i.src);
            if test {
                return alu::emit_alu(code, at, width, TEST, src, dst);
            }
            alu::emit_alu(code, at, width, CMP, src, dst)
        }
    }
}

pub fn emit_jump(
    code: &mut [u8],
    at: Position,
    jumps: &mut JumpTables<'_>,
    width: Width,
    source: Source,
    slot: Slot,
    i: Insn,
) -> Position
    requires room { Room code at jumps (jump_code (condition_of i.opc) width source slot.number i) }
    requires dst_bound { (i.dst < 11) × ((i.src < 11) × (slot.number < 2 ^ 16)) }
    ensures { Emits code at result jumps slot (jump_code (condition_of i.opc) width source slot.number i) }
{
    let target = emission::target_of(slot, i.off);
    let compared = emit_compare(code, at, width, source, i);
    let next = jump::emit_jcc(code, compared, condition_byte(i.opc), 0);
    jumps.record_jump(next, target, jit::CONDITIONAL, slot);
    next
}

// RCX is kept free for shifts, so the fourth argument is copied to where the machine's calls have it.
fn emit_helper_call(code: &mut [u8], at: Position, mode: Mode, address: u64) -> Position
    requires { FitAll code at (helper_call mode address) }
    ensures { Wrote code at result (blanks (helper_call mode address)) }
{
    let copied = alu::emit_alu(code, at, Width::W64, MOV, R9, RCX);
    let loaded = constant::emit_load_imm(code, copied, mode, RAX, address);
    jump::emit_call_rax(code, loaded)
}

// r6 to r9 are the callee's to change: they are saved round the call. Four calls in a row and no loop over the four registers, here and below:
// each call has its register as a constant, and a loop would need an invariant for bytes that are known.
fn emit_saved_registers(code: &mut [u8], at: Position) -> Position
    requires { FitAll code at call_saves }
    ensures { Wrote code at result (blanks call_saves) }
{
    let a = alu::emit_push(code, at, RBX);
    let b = alu::emit_push(code, a, R13);
    let c = alu::emit_push(code, b, R14);
    alu::emit_push(code, c, R15)
}

fn emit_restored_registers(code: &mut [u8], at: Position) -> Position
    requires { FitAll code at call_restores }
    ensures { Wrote code at result (blanks call_restores) }
{
    let a = alu::emit_pop(code, at, R15);
    let b = alu::emit_pop(code, a, R14);
    let c = alu::emit_pop(code, b, R13);
    alu::emit_pop(code, c, RBX)
}

fn emit_local_call(
    code: &mut [u8],
    at: Position,
    jumps: &mut JumpTables<'_>,
    slot: Slot,
    target: u32,
) -> Position
    requires { Room code at jumps (local_call target) × (slot.number < 2 ^ 16) }
    ensures { Emits code at result jumps slot (local_call target) }
{
    let saved = emit_saved_registers(code, at);
    let called = jump::emit_call(code, saved, 0);
    jumps.record_jump(called, target, jit::LOCAL_CALL, slot);
    emit_restored_registers(code, called)
}

// CALL: src 0 is a helper at the address `value`, src 1 a call within the program.
pub fn emit_call(
    code: &mut [u8],
    at: Position,
    jumps: &mut JumpTables<'_>,
    mode: Mode,
    slot: Slot,
    i: Insn,
    value: u64,
) -> Position
    requires room { Room code at jumps (call_code mode slot.number i value) }
    requires number_bound { slot.number < 2 ^ 16 }
    ensures { Emits code at result jumps slot (call_code mode slot.number i value) }
{
    if i.src == 0 {
        return emit_helper_call(code, at, mode, value);
    }
    emit_local_call(code, at, jumps, slot, emission::target_of(slot, i.imm))
}
