// Loads and stores: classes LDX, ST and STX.
ghost use Rattle.base.specs.Lent.{read};
ghost use Rattle.std.specs.Prelude.{◌≡◌};
ghost use Rattle.replay_step.specs.Lent.{Fetches, Reaches, Loads, Stores, imm_in, src_in};

use crate::fetch::{dst_of, imm_of, off_of, src_of};
use base::Width;
use ebpf::kind::size_of;
use replay_memory::access::{load_at, store_at};
use replay_values::operand::immediate;

// False where the access lies outside.
pub fn step_load(
    code: u8,
    prog: &[u8],
    slot: usize,
    regs: &mut [u64],
    stack: &[u8],
    packet: &[u8],
) -> bool
    requires { Fetches prog slot (read regs) × Reaches packet stack }
    ensures { Loads code prog slot regs stack packet result }
{
    let src = src_of(prog, slot);
    let address = regs[src].wrapping_add(off_of(prog, slot));
    let Some(value) = load_at(size_of(code), packet, stack, address) else {
        return false;
    };
    let dst = dst_of(prog, slot);
    regs[dst] = value;
    true
}

fn store(
    code: u8,
    prog: &[u8],
    slot: usize,
    regs: &[u64],
    stack: &mut [u8],
    packet: &mut [u8],
    value: u64,
) -> bool
    requires { Fetches prog slot regs × Reaches (read packet) (read stack) }
    ensures { Stores code prog slot regs stack packet value result }
{
    let dst = dst_of(prog, slot);
    let address = regs[dst].wrapping_add(off_of(prog, slot));
    store_at(size_of(code), packet, stack, address, value)
}

pub fn step_store_imm(
    code: u8,
    prog: &[u8],
    slot: usize,
    regs: &[u64],
    stack: &mut [u8],
    packet: &mut [u8],
) -> bool
    requires { Fetches prog slot regs × Reaches (read packet) (read stack) }
    ensures { Stores code prog slot regs stack packet (imm_in prog slot) result }
{
    let value = immediate(Width::W64, imm_of(prog, slot));
    store(code, prog, slot, regs, stack, packet, value)
}

pub fn step_store_reg(
    code: u8,
    prog: &[u8],
    slot: usize,
    regs: &[u64],
    stack: &mut [u8],
    packet: &mut [u8],
) -> bool
    requires { Fetches prog slot regs × Reaches (read packet) (read stack) }
    ensures { Stores code prog slot regs stack packet (src_in prog slot regs) result }
{
    let src = src_of(prog, slot);
    let value = regs[src];
    store(code, prog, slot, regs, stack, packet, value)
}
