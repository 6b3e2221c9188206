// One slot: the match of `jit_compile` in the Rust, over the opcode's entry in the table and not over its kind, so that no kind is put
// together only to be taken apart again.
ghost use Rattle.std.specs.Prelude.{◌≡◌, ◌<◌, ◌^◌};
ghost use Rattle.x86.specs.Fill.{blanks};
ghost use Rattle.x86_emit.specs.Lent.{FitAll, Wrote};
ghost use Rattle.jit_recording.specs.Lent.{Emits, Room};
ghost use Rattle.jit_walk.specs.Operands.{operand_is};
ghost use Rattle.jit_walk.specs.Numbered.{value_in, Others};
ghost use Rattle.jit_writing.specs.Lent.{code_at, plain_code};
ghost use Rattle.jit_walk.specs.Lent.{SlotRead, insn_in, insn_of};
ghost use Rattle.jit.specs.Lent.{filter_in, filter_of};
ghost use Rattle.jit.specs.Passes.{Paired};

use base::{Position, Slot};
use ebpf::constants::MOV64_IMM;
use ebpf::insn::insn_at;
use ebpf::kind;
use ebpf::kind::{mul_of, size_of, source_of, width_of};
use jit::{Mode, Refusal};
use jit_dividing::muldivmod;
use jit_recording::emission::JumpTables;
use jit_slots::{alu, jump, load};
use jit_walk::operand;

// What a slot of an accepted program takes from elsewhere is there.
fn value_in(operand: Result<u64, Refusal>) -> u64
    ensures { result ≡ value_in (operand_is operand) }
{
    operand.unwrap_or(0)
}

// The kinds that take nothing from elsewhere and list no jump. An arm reads the slot's fields itself, so that none is read that it has no use
// for.
fn emit_plain(
    code: &mut [u8],
    at: Position,
    mode: Mode,
    number: u8,
    opc: u8,
    prog: &[u8],
    slot: Slot,
) -> Position
    requires slot_read { SlotRead prog slot opc number × Others number }
    requires fit_all { FitAll code at (plain_code mode (insn_in prog slot)) }
    ensures { Wrote code at result (blanks (plain_code mode (insn_of prog slot))) }
{
    match number {
        kind::KIND_LD_ABS => load::emit_ld_abs(code, at, size_of(opc), insn_at(prog, slot)),
        kind::KIND_LD_IND => load::emit_ld_ind(code, at, size_of(opc), insn_at(prog, slot)),
        kind::KIND_LD_REG => load::emit_ld_reg(code, at, size_of(opc), insn_at(prog, slot)),
        kind::KIND_ST_IMM => load::emit_st_imm(code, at, size_of(opc), insn_at(prog, slot)),
        kind::KIND_ST_REG => load::emit_st_reg(code, at, size_of(opc), insn_at(prog, slot)),
        kind::KIND_ALU => alu::emit_arithmetic(
            code,
            at,
            width_of(opc),
            source_of(opc),
            insn_at(prog, slot),
        ),
        kind::KIND_SHIFT => alu::emit_shift(
            code,
            at,
            width_of(opc),
            source_of(opc),
            insn_at(prog, slot),
        ),
        kind::KIND_NEG => alu::emit_neg(code, at, width_of(opc), insn_at(prog, slot)),
        kind::KIND_MOV => {
            if opc == MOV64_IMM {
                return alu::emit_mov64_imm(code, at, mode, insn_at(prog, slot));
            }
            alu::emit_mov(
                code,
                at,
                mode,
                width_of(opc),
                source_of(opc),
                insn_at(prog, slot),
            )
        }
        kind::KIND_BE => alu::emit_be(code, at, insn_at(prog, slot)),
        kind::KIND_LE => alu::emit_le(code, at, mode, insn_at(prog, slot)),
        kind::KIND_EXIT => x86_emit::jump::emit_ret(code, at),
        _ => at,
    }
}

// `opc` is the slot's opcode, and `number` the opcode's entry in the table.
pub fn emit_slot(
    code: &mut [u8],
    at: Position,
    jumps: &mut JumpTables<'_>,
    mode: Mode,
    number: u8,
    slot: Slot,
    opc: u8,
    prog: &[u8],
    ids: &[u32],
    addresses: &[u64],
) -> Position
    requires slot_read { SlotRead prog slot opc number × ((slot.number < 2 ^ 16) × Paired ids addresses) }
    requires room { Room code at jumps (code_at (filter_in prog mode ids addresses) slot) }
    ensures { Emits code at result jumps slot (code_at (filter_of prog mode ids addresses) slot) }
{
    match number {
        kind::KIND_LD_DW_IMM => {
            let i = insn_at(prog, slot);
            let value = value_in(operand::wide_operand(prog, slot, i));
            load::emit_ld_dw_imm(code, at, mode, i, value)
        }
        kind::KIND_MULDIVMOD => muldivmod::emit_muldivmod(
            code,
            at,
            jumps,
            mode,
            mul_of(opc),
            width_of(opc),
            source_of(opc),
            slot,
            insn_at(prog, slot),
        ),
        kind::KIND_JA => jump::emit_ja(code, at, jumps, slot, insn_at(prog, slot)),
        kind::KIND_JUMP => jump::emit_jump(
            code,
            at,
            jumps,
            width_of(opc),
            source_of(opc),
            slot,
            insn_at(prog, slot),
        ),
        kind::KIND_CALL => {
            let i = insn_at(prog, slot);
            let value = value_in(operand::call_operand(ids, addresses, slot, i));
            jump::emit_call(code, at, jumps, mode, slot, i, value)
        }
        _ => emit_plain(code, at, mode, number, opc, prog, slot),
    }
}
