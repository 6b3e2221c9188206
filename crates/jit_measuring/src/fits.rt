// The quick check: is the program accepted for sure, or refused for sure? It keeps room for the longest code that each slot can have, and
// looks at a slot only as far as a refusal could come from. Where it is not sure, measuring decides.
ghost use Rattle.std.specs.Prelude.{◌≡◌, ◌<◌, ◌^◌, leb, Ok, Err};
ghost use Rattle.base.specs.Pick.{pick};
ghost use Rattle.jit.specs.Lent.{filter_of};
ghost use Rattle.jit.specs.Passes.{Paired, WithinLimits};
ghost use Rattle.jit.specs.Slots.{target_of};
ghost use Rattle.jit_walk.specs.Lent.{helper_of};
ghost use Rattle.jit_measuring.specs.declared.fits.Glance.TheVariants.{Lost};
ghost use Rattle.jit_measuring.specs.Fits.{is_address};
ghost use Rattle.jit_measuring.specs.Lent.{Inside, call_seen, Sees, Settles};

use base::{Position, Slot};
use ebpf::insn::{Tail, offset_at, read_i32, tail_of};
use ebpf::kind;
use ebpf::kind::Opcodes;
use jit::{Mode, Refusal};
use jit_recording::emission;
use jit_walk::operand;

// What a look finds of a slot that is not refused: it is translated, to SHORT_SLOT bytes at most, to LONG_SLOT (division and calls), or with the
// next slot as its second half; or its jump goes nowhere.
#[derive(Clone, Copy)]
pub enum Glance {
    Narrow,
    Long,
    Wide,
    Lost,
}

// Of a program that is not refused: it is accepted, or measuring has to decide.
#[derive(Clone, Copy)]
pub enum Fit {
    Sure,
    Unsure,
}

// What is found, where a test says that the slot is fine.
fn found_if(fine: bool, found: Glance, refusal: Refusal) -> Result<Glance, Refusal>
    ensures { result ≡ pick fine (Ok found) (Err refusal) }
{
    if fine { Ok(found) } else { Err(refusal) }
}

// What is found, where a jump's target is a slot, or n. The exit, which a call alone can name, is left to measuring.
fn jump_if(n: usize, slot: Slot, distance: u32, found: Glance) -> Glance
    requires { slot.number < 2 ^ 16 }
    ensures { result ≡ pick (leb (target_of slot.number distance) n) found Lost }
{
    if emission::target_of(slot, distance) as usize <= n {
        return found;
    }
    Glance::Lost
}

fn is_helper(ids: &[u32], addresses: &[u64], id: u32) -> bool
    requires { Paired ids addresses }
    ensures { result ≡ is_address (helper_of ids addresses id) }
{
    operand::helper_of(ids, addresses, id).is_some()
}

fn look_at_call(
    ids: &[u32],
    addresses: &[u64],
    n: usize,
    slot: Slot,
    src: u8,
    imm: u32,
) -> Result<Glance, Refusal>
    requires { Paired ids addresses × (slot.number < 2 ^ 16) }
    ensures { result ≡ call_seen ids addresses n slot src imm }
{
    match src {
        0 => {
            let known = is_helper(ids, addresses, imm);
            found_if(known, Glance::Long, Refusal::UnknownHelper(slot))
        }
        1 => Ok(jump_if(n, slot, imm, Glance::Long)),
        _ => Err(Refusal::BadCall(slot)),
    }
}

// `n` is the number of slots.
fn look_at(
    opcodes: &Opcodes,
    prog: &[u8],
    mode: Mode,
    ids: &[u32],
    addresses: &[u64],
    n: usize,
    slot: Slot,
) -> Result<Glance, Refusal>
    requires paired { Paired ids addresses }
    requires inside { Inside prog n slot }
    ensures { Sees (filter_of prog mode ids addresses) n slot result }
{
    let at = 8 * slot.number;
    let registers = prog[at + 1];
    if 10 < registers % 16 || 10 < registers / 16 {
        return Err(Refusal::BadRegister(slot));
    }
    match opcodes.number_of(prog[at]) {
        kind::KIND_UNKNOWN => Err(Refusal::UnknownOpcode(slot)),
        kind::KIND_UNIMPLEMENTED => Err(Refusal::Unimplemented(slot)),
        kind::KIND_LD_DW_IMM => found_if(slot.number + 1 < n, Glance::Wide, Refusal::Torn(slot)),
        kind::KIND_MULDIVMOD => Ok(Glance::Long),
        kind::KIND_BE => {
            let known = operand::swap_bits(read_i32(prog, at + 4));
            found_if(known, Glance::Narrow, Refusal::BadSwap(slot))
        }
        kind::KIND_JA => Ok(jump_if(n, slot, offset_at(prog, at + 2), Glance::Narrow)),
        kind::KIND_JUMP => Ok(jump_if(n, slot, offset_at(prog, at + 2), Glance::Narrow)),
        kind::KIND_CALL => {
            let imm = read_i32(prog, at + 4);
            look_at_call(ids, addresses, n, slot, registers / 16, imm)
        }
        kind::KIND_LE => {
            let known = operand::le_bits(mode, read_i32(prog, at + 4));
            found_if(known, Glance::Narrow, Refusal::BadSwap(slot))
        }
        _ => Ok(Glance::Narrow),
    }
}

// What a long slot can have beyond a short one.
const MORE: usize = jit::LONG_SLOT - jit::SHORT_SLOT;

// SHORT_SLOT bytes are kept for each slot, and the epilogue's; what a long slot has beyond them is taken from what the page has beyond these.
pub fn fits(
    opcodes: &Opcodes,
    prog: &[u8],
    mode: Mode,
    ids: &[u32],
    addresses: &[u64],
    page: usize,
    start: Position,
) -> Result<Fit, Refusal>
    requires { WithinLimits prog ids addresses page start }
    ensures { Settles (filter_of prog mode ids addresses) page start result }
{
    let n = prog.len() / 8;
    let from = start.offset;
    let kept = from + jit::SHORT_SLOT * n + jit::EPILOGUE_SIZE;
    if page < kept {
        return Ok(Fit::Unsure);
    }
    let mut spare = page - kept;
    let mut slot = Slot { number: 0 };
    // No `for`: the slot itself says whether the next is one or two further on.
    while slot.number < n {
        match look_at(opcodes, prog, mode, ids, addresses, n, slot)? {
            Glance::Narrow => {
                slot = Slot {
                    number: slot.number + 1,
                };
            }
            Glance::Long => {
                if spare < MORE {
                    return Ok(Fit::Unsure);
                }
                spare -= MORE;
                slot = Slot {
                    number: slot.number + 1,
                };
            }
            Glance::Wide => {
                slot = Slot {
                    number: slot.number + 2,
                };
            }
            Glance::Lost => {
                return Ok(Fit::Unsure);
            }
        }
    }
    let Tail::Nothing = tail_of(prog) else {
        return Err(Refusal::Torn(slot));
    };
    Ok(Fit::Sure)
}
