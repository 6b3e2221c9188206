// The measuring pass: every slot is judged and its code's length found before a byte is written, so that a refusal changes nothing.
ghost use Rattle.std.specs.Prelude.{◌≡◌, ℕ, ◌<◌, ◌^◌, Ok};
ghost use Rattle.ebpf.specs.Kinds.{width_of, condition_of};
ghost use Rattle.ebpf.specs.Opcode.{source_of};
ghost use Rattle.ebpf.specs.declared.kind.Kind.TheVariants.{LdDwImm, Le, Be, Jump, Call};
ghost use Rattle.jit.specs.Lent.{filter_of};
ghost use Rattle.jit.specs.Passes.{Paired, WithinLimits};
ghost use Rattle.jit.specs.Translation.{wide_value, swap_bits, le_bits, swap_value, has};
ghost use Rattle.jit_walk.specs.Lent.{call_value, read_behind};
ghost use Rattle.jit_measuring.specs.Looks.{plainly, jumping};
ghost use Rattle.jit_measuring.specs.Lent.{Inside, Takes, AlwaysTakes, Looks, Answers};

use base::{Position, Slot};
use ebpf::insn::{Insn, Tail};
use ebpf::kind::Opcodes;
use ebpf::{insn, kind};
use jit::{Mode, Refusal};
use jit_lengths::{instruction, slot as lengths};
use jit_recording::{emission, register};
use jit_walk::operand;

// The bytes of a jump with its field, without a condition and with one.
const JMP_SIZE: usize = 5;

const JCC_SIZE: usize = 6;

// What comes behind a slot: the following one; the one behind its second half; the following one, though its jump goes nowhere.
#[derive(Clone, Copy)]
pub enum Next {
    Following,
    Wide,
    Lost,
}

// Of a slot that is translated: how long its code is, and what comes behind it.
#[derive(Clone, Copy)]
pub struct Look {
    pub size: usize,
    pub next: Next,
}

// Of a program whose slots are all translated: where their code ends, and the slot of the first jump that goes nowhere.
#[derive(Clone, Copy)]
pub struct Measured {
    pub end: Position,
    pub bad: Option<Slot>,
}

// A slot that lists no jump, or one to the next slot.
fn plain(size: usize) -> Look
    ensures { result ≡ plainly size }
{
    Look {
        size,
        next: Next::Following,
    }
}

// A slot that lists a jump; a recorded target is a slot, or n, or the exit.
#[tactic(auto, unfolding(jit::specs::Translation::good_target))]
fn jumps(size: usize, n: usize, target: u32) -> Look
    ensures { result ≡ jumping size n target }
{
    if target as usize <= n || target == jit::ANCHOR {
        return plain(size);
    }
    Look {
        size,
        next: Next::Lost,
    }
}

fn measure_wide(prog: &[u8], mode: Mode, slot: Slot, i: Insn) -> Result<Look, Refusal>
    requires { (i.dst < 11) × (slot.number < 2 ^ 40) }
    ensures { (n : ℕ) → Takes mode n LdDwImm slot i (wide_value slot.number i (read_behind prog slot)) result }
{
    let value = operand::wide_operand(prog, slot, i)?;
    Ok(Look {
        size: instruction::load_imm_length(mode, register::map_register(i.dst), value),
        next: Next::Wide,
    })
}

fn measure_swap(slot: Slot, i: Insn) -> Result<Look, Refusal>
    requires { i.dst < 11 }
    ensures { (n : ℕ) → AlwaysTakes n Be slot i (swap_value (swap_bits i.imm) slot.number) result }
{
    if operand::swap_bits(i.imm) {
        return Ok(plain(lengths::swap_length(register::map_register(i.dst), i.imm)));
    }
    Err(Refusal::BadSwap(slot))
}

fn measure_le(mode: Mode, slot: Slot, i: Insn) -> Result<Look, Refusal>
    requires { i.dst < 11 }
    ensures { (n : ℕ) → Takes mode n Le slot i (swap_value (le_bits mode i.imm) slot.number) result }
{
    if operand::le_bits(mode, i.imm) {
        return Ok(plain(lengths::le_length(mode, register::map_register(i.dst), i.imm)));
    }
    Err(Refusal::BadSwap(slot))
}

fn measure_jump(n: usize, slot: Slot, i: Insn) -> Look
    requires { (i.dst < 11) × ((i.src < 11) × (slot.number < 2 ^ 16)) }
    ensures { AlwaysTakes n (Jump (condition_of i.opc) (width_of i.opc) (source_of i.opc)) slot i (has 0) (Ok result) }
{
    let size = lengths::operands_length(kind::width_of(i.opc), kind::source_of(i.opc), i);
    jumps(JCC_SIZE + size, n, emission::target_of(slot, i.off))
}

fn measure_call(
    mode: Mode,
    ids: &[u32],
    addresses: &[u64],
    n: usize,
    slot: Slot,
    i: Insn,
) -> Result<Look, Refusal>
    requires { Paired ids addresses × (slot.number < 2 ^ 16) }
    ensures { Takes mode n Call slot i (call_value ids addresses slot i) result }
{
    let value = operand::call_operand(ids, addresses, slot, i)?;
    let size = lengths::call_length(mode, i, value);
    if i.src == 0 {
        return Ok(plain(size));
    }
    Ok(jumps(size, n, emission::target_of(slot, i.imm)))
}

// `n` is the number of slots.
pub fn measure_slot(
    opcodes: &Opcodes,
    prog: &[u8],
    mode: Mode,
    ids: &[u32],
    addresses: &[u64],
    n: usize,
    slot: Slot,
) -> Result<Look, Refusal>
    requires paired { Paired ids addresses }
    requires inside { Inside prog n slot }
    ensures { Looks (filter_of prog mode ids addresses) n slot result }
{
    let at = 8 * slot.number;
    let registers = prog[at + 1];
    if 10 < registers % 16 || 10 < registers / 16 {
        return Err(Refusal::BadRegister(slot));
    }
    let opc = prog[at];
    let number = opcodes.number_of(opc);
    match number {
        kind::KIND_UNKNOWN => Err(Refusal::UnknownOpcode(slot)),
        kind::KIND_UNIMPLEMENTED => Err(Refusal::Unimplemented(slot)),
        kind::KIND_LD_DW_IMM => measure_wide(prog, mode, slot, insn::insn_at(prog, slot)),
        kind::KIND_BE => measure_swap(slot, insn::insn_at(prog, slot)),
        kind::KIND_JA => {
            let target = emission::target_of(slot, insn::offset_at(prog, at + 2));
            Ok(jumps(JMP_SIZE, n, target))
        }
        kind::KIND_JUMP => Ok(measure_jump(n, slot, insn::insn_at(prog, slot))),
        kind::KIND_CALL => measure_call(mode, ids, addresses, n, slot, insn::insn_at(prog, slot)),
        kind::KIND_LE => measure_le(mode, slot, insn::insn_at(prog, slot)),
        _ => Ok(plain(lengths::slot_length(mode, number, opc, prog, slot))),
    }
}

// The slots from 0 on, the first one's code at `start`.
pub fn measure(
    opcodes: &Opcodes,
    prog: &[u8],
    mode: Mode,
    ids: &[u32],
    addresses: &[u64],
    page: usize,
    start: Position,
) -> Result<Measured, Refusal>
    requires { WithinLimits prog ids addresses page start }
    ensures { Answers (filter_of prog mode ids addresses) page start result }
{
    let n = prog.len() / 8;
    let mut slot = Slot { number: 0 };
    let mut at = start;
    let mut bad = None;
    // No `for`: the slot itself says whether the next is one or two further on.
    while slot.number < n {
        let looked = measure_slot(opcodes, prog, mode, ids, addresses, n, slot);
        let seen = looked?;
        let end = at.offset + seen.size;
        if page < end {
            return Err(Refusal::NoRoom(slot));
        }
        at = Position { offset: end };
        match seen.next {
            Next::Following => {
                slot = Slot {
                    number: slot.number + 1,
                };
            }
            Next::Wide => {
                slot = Slot {
                    number: slot.number + 2,
                };
            }
            Next::Lost => {
                bad = bad.or(Some(slot));
                slot = Slot {
                    number: slot.number + 1,
                };
            }
        }
    }
    let Tail::Nothing = insn::tail_of(prog) else {
        return Err(Refusal::Torn(slot));
    };
    Ok(Measured { end: at, bad })
}
