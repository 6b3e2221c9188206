// One packet by itself: what a loader compares a page with, packet by packet.
ghost use Rattle.std.specs.Prelude.{◌≡◌, not, ◌||◌, nat_lt};
ghost use Rattle.pcap.specs.Capture.{longest_packet};
ghost use Rattle.replay_capture.specs.Lent.{PacketReplayed};

use crate::decide::prepare;
use crate::record::run_copy;
use jit::MOST_SLOTS;
use pcap::LONGEST_PACKET;
use replay::{Ended, Refusal};

// A packet that a run can be given, and that there is room for.
fn is_good(packet: usize, room: usize) -> bool
    ensures { result ≡ not (nat_lt longest_packet packet || nat_lt room packet) }
{
    packet <= LONGEST_PACKET && packet <= room
}

// The packet is run on a copy, which is left at the head of `copy` as the run leaves it. Each slot that ran adds one to its entry of `counts`.
pub fn replay_packet(
    prog: &[u8],
    ids: &[u32],
    addresses: &[u64],
    page: usize,
    packet: &[u8],
    copy: &mut [u8],
    counts: &mut [u64],
) -> Result<Ended, Refusal>
    ensures { PacketReplayed prog ids addresses page packet copy counts result }
{
    let mut codes = [0u8; MOST_SLOTS];
    prepare(prog, ids, addresses, page, counts.len(), &mut codes)?;
    if !is_good(packet.len(), copy.len()) {
        return Err(Refusal::BadRecord);
    }
    Ok(run_copy(&codes, prog, counts, copy, packet))
}
