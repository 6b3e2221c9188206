// What a slot takes from elsewhere: a wide load the second half of its constant, a call the address that is listed for its helper.
ghost use Rattle.std.specs.Prelude.{◌≡◌, ◌<◌, ◌^◌};
ghost use Rattle.jit.specs.Passes.{Paired};
ghost use Rattle.jit.specs.Translation.{swap_bits, le_bits, wide_value};
ghost use Rattle.jit_walk.specs.Operands.{operand_is};
ghost use Rattle.jit_walk.specs.Lent.{helper_of, call_value, read_behind};

use base::Slot;
use ebpf::insn;
use ebpf::insn::Insn;
use jit::{Mode, Refusal};

// The address that is listed beside an id.
pub fn helper_of(ids: &[u32], addresses: &[u64], id: u32) -> Option<u64>
    requires { Paired ids addresses }
    ensures { result ≡ helper_of ids addresses id }
{
    let at = ids.iter().position(|listed| *listed == id)?;
    Some(addresses[at])
}

pub fn swap_bits(bits: u32) -> bool
    ensures { result ≡ swap_bits bits }
{
    matches!(bits, 16 | 32 | 64)
}

// LE: the Rust takes every width.
pub fn le_bits(mode: Mode, bits: u32) -> bool
    ensures { result ≡ le_bits mode bits }
{
    !mode.standard || swap_bits(bits)
}

// A wide load's constant: its own immediate below the next slot's.
pub fn wide_operand(prog: &[u8], slot: Slot, i: Insn) -> Result<u64, Refusal>
    requires { slot.number < 2 ^ 40 }
    ensures { operand_is result ≡ wide_value slot.number i (read_behind prog slot) }
{
    let next = Slot {
        number: slot.number + 1,
    };
    let second = insn::get_insn(prog, next).ok_or(Refusal::Torn(slot))?;
    Ok(u64::from(i.imm) + 0x1_0000_0000 * u64::from(second.imm))
}

pub fn call_operand(ids: &[u32], addresses: &[u64], slot: Slot, i: Insn) -> Result<u64, Refusal>
    requires { Paired ids addresses }
    ensures { operand_is result ≡ call_value ids addresses slot i }
{
    match i.src {
        0 => helper_of(ids, addresses, i.imm).ok_or(Refusal::UnknownHelper(slot)),
        1 => Ok(0),
        _ => Err(Refusal::BadCall(slot)),
    }
}
