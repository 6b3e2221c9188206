// The totals with one packet more.
ghost use Rattle.std.specs.Prelude.{◌≡◌, ◌+◌, ◌%◌, ◌^◌};
ghost use Rattle.replay.specs.Report.{is_kept, added};
ghost use Rattle.replay_capture.specs.Counted.{one, ended_by, exited_with};

use replay::{Ended, Totals};

// Kept is EXIT with r0 not 0.
pub fn is_kept(ended: Ended) -> bool
    ensures { result ≡ is_kept ended }
{
    matches!(ended, Ended::Exit(value) if value != 0)
}

fn exited(totals: Totals, value: u64) -> Totals
    ensures { result ≡ exited_with totals value }
{
    let mut t = totals;
    if value == 0 {
        t.dropped = t.dropped.wrapping_add(1);
        return t;
    }
    t.kept = t.kept.wrapping_add(1);
    t
}

fn ended_by(totals: Totals, ended: Ended) -> Totals
    ensures { result ≡ ended_by totals ended }
{
    let mut t = totals;
    match ended {
        Ended::Exit(value) => exited(t, value),
        Ended::StepLimit => {
            t.step_limit = t.step_limit.wrapping_add(1);
            t
        }
        Ended::Access => {
            t.access = t.access.wrapping_add(1);
            t
        }
        Ended::NoSlot => {
            t.no_slot = t.no_slot.wrapping_add(1);
            t
        }
    }
}

pub fn count(totals: Totals, ended: Ended) -> Totals
    ensures { result ≡ added totals (one ended) }
{
    let mut t = ended_by(totals, ended);
    t.packets = t.packets.wrapping_add(1);
    t
}
