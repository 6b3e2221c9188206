// What can be wrong with a stream, a case or what the translator did, and the sentence that says so.

#![tactic(auto)]

ghost use Rattle.std.specs.Prelude.{◌≡◌, min, length};
ghost use Rattle.text.specs.Lent.{Says};
ghost use Rattle.cases_problems.specs.Problems.{problem_number, why_of};
ghost use Rattle.cases_problems.specs.Lent.{changed_of, report_of};
ghost use Rattle.cases_problems.specs.declared.Problem.TheVariants.{Unreadable};

use streams::Reason;
use text::number::put_decimal;
use text::text::{put_byte, put_text};

#[derive(Clone, Copy, PartialEq, Eq)]
pub enum Problem {
    // The stream is over, between two records.
    End,
    // The stream.
    Unreadable,
    Torn,
    TooLong,
    // The case.
    OtherFlags,
    ManyIds,
    ManyAddresses,
    LongProgram,
    Unfilled,
    // What the translator did: an answer beyond what was lent, or a change where there may be none.
    WrongLengths,
    PageChanged,
    LocationsChanged,
    FieldsChanged,
    TargetsChanged,
    KindsChanged,
    MakersChanged,
    // The answer is longer than the room for it.
    NoRoom,
}

// A read that failed.
impl From<Reason> for Problem {
    ghost from_gives = { λ _ problem. problem ≡ Unreadable };

    fn from(_reason: Reason) -> Problem {
        Problem::Unreadable
    }
}

pub fn number_of(problem: Problem) -> u8
    ensures { result ≡ problem_number problem }
{
    match problem {
        Problem::End => 1,
        Problem::Unreadable => 2,
        Problem::Torn => 3,
        Problem::TooLong => 4,
        Problem::OtherFlags => 5,
        Problem::ManyIds => 6,
        Problem::ManyAddresses => 7,
        Problem::LongProgram => 8,
        Problem::Unfilled => 9,
        Problem::WrongLengths => 10,
        Problem::PageChanged => 11,
        Problem::LocationsChanged => 12,
        Problem::FieldsChanged => 13,
        Problem::TargetsChanged => 14,
        Problem::KindsChanged => 15,
        Problem::MakersChanged => 16,
        Problem::NoRoom => 17,
    }
}

fn put_changed(out: &mut [u8], at: usize, what: &[u8]) -> usize
    ensures { Says out at result (changed_of what) }
{
    let told = put_text(out, at, b": the translator changed the ");
    let named = put_text(out, told, what);
    put_text(out, named, b" where it may not")
}

fn put_why(out: &mut [u8], at: usize, problem: Problem) -> usize
    ensures { Says out at result (why_of problem) }
{
    match problem {
        Problem::End => put_text(out, at, b" is not there: the stream has ended"),
        Problem::Unreadable => put_text(out, at, b" cannot be read"),
        Problem::Torn => put_text(out, at, b" is malformed: the stream ends inside it"),
        Problem::TooLong => put_text(
            out,
            at,
            b" is malformed: it is longer than the format allows",
        ),
        Problem::OtherFlags => put_text(
            out,
            at,
            b" is malformed: it has a flag other than bits 0, 1, 2, 3 and 7",
        ),
        Problem::ManyIds => put_text(out, at, b" is malformed: it has more than 512 helper ids"),
        Problem::ManyAddresses => put_text(
            out,
            at,
            b" is malformed: it has more than 512 helper addresses",
        ),
        Problem::LongProgram => put_text(
            out,
            at,
            b" is malformed: its program is longer than 32768 bytes",
        ),
        Problem::Unfilled => put_text(out, at, b" is malformed: its parts do not fill its length"),
        Problem::WrongLengths => put_text(
            out,
            at,
            b": the translator answers lengths beyond what it was lent",
        ),
        Problem::PageChanged => put_changed(out, at, b"page"),
        Problem::LocationsChanged => put_changed(out, at, b"location table"),
        Problem::FieldsChanged => put_changed(out, at, b"jump field table"),
        Problem::TargetsChanged => put_changed(out, at, b"jump target table"),
        Problem::KindsChanged => put_changed(out, at, b"jump kind table"),
        Problem::MakersChanged => put_changed(out, at, b"jump maker table"),
        Problem::NoRoom => put_text(out, at, b": there is no room for its answer"),
    }
}

// As `case 7 is malformed: the stream ends inside it`, with its newline. Records are counted from 0.
pub fn put_report(out: &mut [u8], what: &[u8], index: u64, problem: Problem) -> usize
    ensures { Says out 0 result (report_of what index problem) }
{
    let named = put_text(out, 0, what);
    let apart = put_byte(out, named, b' ');
    let counted = put_decimal(out, apart, index);
    let told = put_why(out, counted, problem);
    put_byte(out, told, b'\n')
}

// That line, on standard error; the answer is how many bytes it has, 160 at most.
pub fn report(rt: &HostRuntime, what: &[u8], index: u64, problem: Problem) -> usize
    ensures { result ≡ min (length (report_of what index problem)) 160 }
{
    let mut line = [0u8; 160];
    let end = put_report(&mut line, what, index, problem);
    streams::tell(rt, &line[..end]);
    end
}
