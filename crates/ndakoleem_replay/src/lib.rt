// A packet's run on the model, as C sees it: the static library that `rt lib` writes here. It stands apart from crates/ndakoleem so
// that a loader that compares nothing links nothing of it, and its translation costs what it did (crates/ndakoleem_map). It only hands on
// what it is given and puts the answer into a struct of numbers, since an enum does not pass the boundary. The declarations for C are
// include/ndakoleem.h.

#![tactic(auto)]

ghost use Rattle.std.specs.Prelude.{◌≡◌};
ghost use Rattle.ndakoleem_replay.specs.ExportedRun.{ended_of, value_of};
ghost use Rattle.ndakoleem_replay.specs.Lent.{ExportedRun};

use replay::Ended;
use replay_capture::packet::replay_packet;
use replay_text::refusal::{number_of, slot_of};

// The packet was run: number 0, slot 0, how the run ended (`ended_of`), and r0 where that was EXIT, else 0. Refused: the number and slot of
// docs/REFUSALS.md, and 0 for the other two.
#[repr(C)]
#[derive(Clone, Copy)]
pub struct RanPacket {
    pub number: u8,
    pub slot: usize,
    pub ended: u8,
    pub r0: u64,
}

fn ended_of(ended: Ended) -> u8
    ensures { result ≡ ended_of ended }
{
    match ended {
        Ended::Exit(_) => 0,
        Ended::StepLimit => 1,
        Ended::Access => 2,
        Ended::NoSlot => 3,
    }
}

fn value_of(ended: Ended) -> u64
    ensures { result ≡ value_of ended }
{
    match ended {
        Ended::Exit(value) => value,
        Ended::StepLimit => 0,
        Ended::Access => 0,
        Ended::NoSlot => 0,
    }
}

// The four numbers of `replay_packet`'s answer; what is lent is left as `replay_packet` leaves it (specs/ExportedRun.antt). The number in the
// name rises with every change of the parameters: a caller that was built for others does not link.
#[unsafe(no_mangle)]
pub extern "C" fn ndakoleem_run_packet_1(
    program: &[u8],
    ids: &[u32],
    addresses: &[u64],
    page: usize,
    packet: &[u8],
    copy: &mut [u8],
    counts: &mut [u64],
) -> RanPacket
    ensures { ExportedRun program ids addresses page packet copy counts result }
{
    match replay_packet(program, ids, addresses, page, packet, copy, counts) {
        Err(refusal) => RanPacket {
            number: number_of(refusal),
            slot: slot_of(refusal),
            ended: 0,
            r0: 0,
        },
        Ok(ended) => RanPacket {
            number: 0,
            slot: 0,
            ended: ended_of(ended),
            r0: value_of(ended),
        },
    }
}
