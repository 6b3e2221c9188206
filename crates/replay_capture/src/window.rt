// A part of a capture, behind its header: every whole record at its head is run. A capture that is larger than memory is read part by part, and
// what is left of one part stands at the head of the next (specs/Windowed.antt).
ghost use Rattle.std.specs.Prelude.{◌≡◌, ◌≤◌, length};
ghost use Rattle.pcap.specs.Capture.{longest_packet};
ghost use Rattle.replay_run.specs.Lent.{Prepared};
ghost use Rattle.replay_capture.specs.Lent.{Windowed};
ghost use Rattle.replay_capture.specs.PassesLent.{Keeping, KeptRecord, Going, Gone, RanAll};

use crate::Progress;
use crate::decide::prepare;
use crate::record::{keep, run_copy};
use crate::totals::{count, is_kept};
use jit::MOST_SLOTS;
use pcap::{Order, RECORD, Record, record_of};
use replay::{Refusal, Totals};

// The end of what is kept, with the record from `at` to `end`, where it is kept and there is room for all of the window.
fn keep_record(
    wanted: bool,
    window: &[u8],
    at: usize,
    end: usize,
    kept: &mut [u8],
    length: usize,
) -> usize
    requires { Keeping window at end kept length }
    ensures { KeptRecord wanted window at end kept length result }
{
    if wanted && window.len() <= kept.len() {
        return keep(kept, length, &window[at..end]);
    }
    length
}

// The record behind those that are used, whose packet has `n` bytes.
fn run_record(
    codes: &[u8],
    prog: &[u8],
    window: &[u8],
    n: usize,
    progress: Progress,
    counts: &mut [u64],
    copy: &mut [u8],
    kept: &mut [u8],
) -> Progress
    requires { Going codes prog window n progress counts copy kept }
    ensures { Gone prog window n progress counts copy kept result }
{
    let at = progress.used;
    let begins = at + RECORD;
    let end = begins + n;
    let ended = run_copy(codes, prog, counts, copy, &window[begins..end]);
    let length = keep_record(is_kept(ended), window, at, end, kept, progress.kept);
    Progress {
        used: end,
        kept: length,
        totals: count(progress.totals, ended),
    }
}

// Of a filter that is run, with its table of codes.
pub fn run_records(
    codes: &[u8],
    prog: &[u8],
    order: Order,
    window: &[u8],
    totals: Totals,
    counts: &mut [u64],
    copy: &mut [u8],
    kept: &mut [u8],
) -> Progress
    requires { Prepared codes prog counts × (longest_packet ≤ length copy.old) }
    ensures { RanAll prog order window totals counts copy kept result }
{
    let mut progress = Progress {
        used: 0,
        kept: 0,
        totals,
    };
    loop {
        let at = progress.used;
        match record_of(order, &window[at..]) {
            Record::Packet(n) => {
                progress = run_record(codes, prog, window, n, progress, counts, copy, kept)
            }
            Record::End | Record::Partial | Record::TooLong => return progress,
        }
    }
}

// What a part of a capture comes to; refused, everything is as it was. `copy` is room for a packet's copy, and `kept`, where it is as long as the
// window, room for the records of the packets that are kept.
pub fn replay_window(
    prog: &[u8],
    ids: &[u32],
    addresses: &[u64],
    page: usize,
    order: Order,
    window: &[u8],
    totals: Totals,
    counts: &mut [u64],
    copy: &mut [u8],
    kept: &mut [u8],
) -> Result<Progress, Refusal>
    requires { longest_packet ≤ length copy.old }
    ensures { Windowed prog ids addresses page order window totals counts copy kept result }
{
    let mut codes = [0u8; MOST_SLOTS];
    prepare(prog, ids, addresses, page, counts.len(), &mut codes)?;
    Ok(run_records(&codes, prog, order, window, totals, counts, copy, kept))
}
