// A packet starts afresh.
ghost use Rattle.std.specs.Prelude.{◌≡◌};
ghost use Rattle.base.specs.Lent.{read};
ghost use Rattle.replay_run.specs.Lent.{Starting, RanPacket};

use crate::run::run;
use replay::{Ended, PACKET, STACK, STACK_SIZE};

// r0 to r10.
const REGISTERS: usize = 11;

// `packet` is left as the run leaves it.
pub fn run_packet(codes: &[u8], prog: &[u8], counts: &mut [u64], packet: &mut [u8]) -> Ended
    requires { Starting codes prog counts (read packet) }
    ensures { RanPacket prog counts packet result }
{
    let mut regs = [0u64; REGISTERS];
    regs[1] = PACKET;
    regs[2] = packet.len() as u64;
    regs[10] = STACK + STACK_SIZE as u64;
    let mut stack = [0u8; STACK_SIZE];
    run(codes, prog, counts, &mut regs, &mut stack, packet)
}
