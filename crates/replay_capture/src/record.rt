// A packet, run on a copy, since what a run stores into it is seen by that run alone; and the record of a packet that is kept, put behind those
// before it.
ghost use Rattle.std.specs.Prelude.{◌≡◌, ◌+◌, ◌≤◌, length};
ghost use Rattle.replay_run.specs.Lent.{Starting};
ghost use Rattle.replay_capture.specs.PassesLent.{Copied, Put};

use replay::Ended;
use replay_run::packet::run_packet;

// At the head of `copy` is left what the run leaves of the packet.
pub fn run_copy(
    codes: &[u8],
    prog: &[u8],
    counts: &mut [u64],
    copy: &mut [u8],
    packet: &[u8],
) -> Ended
    requires { Starting codes prog counts packet × (length packet.now ≤ length copy.old) }
    ensures { Copied prog counts copy packet result }
{
    let n = packet.len();
    copy[..n].copy_from_slice(packet);
    run_packet(codes, prog, counts, &mut copy[..n])
}

// The end of what is kept, with a packet's record more.
pub fn keep(kept: &mut [u8], at: usize, packet: &[u8]) -> usize
    requires { at + length packet.now ≤ length kept.old }
    ensures { Put kept at packet result }
{
    let end = at + packet.len();
    kept[at..end].copy_from_slice(packet);
    end
}
