// A capture that is lent whole.
ghost use Rattle.std.specs.Prelude.{◌≤◌, length};
ghost use Rattle.pcap.specs.Capture.{longest_packet};
ghost use Rattle.replay_run.specs.Lent.{Prepared};
ghost use Rattle.replay_capture.specs.Lent.{Captured};
ghost use Rattle.replay_capture.specs.PassesLent.{Reported};

use crate::Report;
use crate::decide::prepare;
use crate::window::run_records;
use jit::MOST_SLOTS;
use pcap::{HEADER, Order, header_of};
use replay::{Refusal, Totals};

// The records behind a header.
fn report(
    codes: &[u8],
    prog: &[u8],
    order: Order,
    records: &[u8],
    counts: &mut [u64],
    copy: &mut [u8],
) -> Report
    requires { Prepared codes prog counts × (longest_packet ≤ length copy.old) }
    ensures { Reported prog order records counts result }
{
    let mut kept = [0u8; 0];
    let none = Totals::default();
    let progress = run_records(codes, prog, order, records, none, counts, copy, &mut kept);
    let totals = progress.totals;
    if progress.used == records.len() {
        return Report::Whole(totals);
    }
    Report::Cut(totals)
}

// Each slot that ran adds one to its entry of `counts`; `copy` is room for a packet's copy.
pub fn replay(
    prog: &[u8],
    ids: &[u32],
    addresses: &[u64],
    page: usize,
    capture: &[u8],
    counts: &mut [u64],
    copy: &mut [u8],
) -> Result<Report, Refusal>
    requires { longest_packet ≤ length copy.old }
    ensures { Captured prog ids addresses page capture counts result }
{
    let mut codes = [0u8; MOST_SLOTS];
    prepare(prog, ids, addresses, page, counts.len(), &mut codes)?;
    let Some(order) = header_of(capture) else {
        return Err(Refusal::NotPcap);
    };
    Ok(report(&codes, prog, order, &capture[HEADER..], counts, copy))
}
