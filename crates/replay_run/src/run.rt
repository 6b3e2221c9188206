// Slot behind slot, each counted. The limit is tested before anything else of a slot.
ghost use Rattle.std.specs.Prelude.{◌≡◌};
ghost use Rattle.replay_run.specs.Lent.{Running, Ran};

use replay::{Ended, STEP_LIMIT};
use replay_step::step::{Next, step};

// `codes` is the program's table of codes. A slot that ran adds one to its entry of `counts`.
pub fn run(
    codes: &[u8],
    prog: &[u8],
    counts: &mut [u64],
    regs: &mut [u64],
    stack: &mut [u8],
    packet: &mut [u8],
) -> Ended
    requires { Running codes prog counts regs stack packet }
    ensures { Ran prog counts regs stack packet result }
{
    let n = prog.len() / 8;
    let mut slot = 0;
    for _ in 0..STEP_LIMIT {
        if n <= slot {
            return Ended::NoSlot;
        }
        match step(codes[slot], prog, slot, regs, stack, packet) {
            Next::Go(next) => {
                counts[slot] = counts[slot].wrapping_add(1);
                slot = next;
            }
            Next::Exit(value) => {
                counts[slot] = counts[slot].wrapping_add(1);
                return Ended::Exit(value);
            }
            Next::Access => {
                counts[slot] = counts[slot].wrapping_add(1);
                return Ended::Access;
            }
            Next::Absent => return Ended::NoSlot,
        }
    }
    Ended::StepLimit
}
