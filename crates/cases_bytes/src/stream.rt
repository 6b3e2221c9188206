// A stream of records, each with its length in four bytes in front, read through a buffer: records of any length that the buffer holds,
// one at a time, however long the stream is.
ghost use Rattle.std.specs.Prelude.{◌≡◌, ◌+◌, ◌≤◌, ◌<◌, ◌^◌, leb, length, Ok, Err, IfOk, MatchResult};
ghost use Rattle.cases_bytes.specs.Lent.{number_at};

use crate::numbers;
use cases_problems::Problem;
use streams::{Reason, Source};

// The bytes of the buffer that are read and not yet used.
#[derive(Clone, Copy)]
pub struct Window {
    pub start: usize,
    pub end: usize,
    ghost ordered: { start ≤ end },
}

// A record's place in the buffer, behind its length and up to the rest of what is read.
#[derive(Clone, Copy)]
pub struct Record {
    pub at: usize,
    pub rest: Window,
}

// Where what is there ends behind a read: a read that failed is not the stream's end.
fn end_behind(end: usize, read: Result<usize, Reason>) -> Result<usize, Reason>
    requires { IfOk read (λ more. end + more < 2 ^ 64) }
    ensures { MatchResult read (λ more. result ≡ Ok (end + more)) (λ reason. result ≡ Err reason) }
{
    match read {
        Ok(more) => Ok(end + more),
        Err(reason) => Err(reason),
    }
}

// Reads behind the first `have` bytes until there are `wanted`, the buffer is full or nothing more comes.
pub fn fill(from: &Source, buffer: &mut [u8], have: usize, wanted: usize) -> Result<Window, Reason>
    requires { have ≤ length buffer.old }
    ensures { IfOk result (λ window. (window.start ≡ 0) × (window.end ≤ length buffer.new)) }
{
    let mut end = have;
    while end < wanted {
        let behind = end_behind(end, streams::read(from, &mut buffer[end..]))?;
        if behind == end {
            break;
        }
        end = behind;
    }
    Ok(Window { start: 0, end })
}

// The window, with `wanted` bytes in it where the stream has them.
pub fn widened(
    from: &Source,
    buffer: &mut [u8],
    window: Window,
    wanted: usize,
) -> Result<Window, Reason>
    requires { window.end ≤ length buffer.old }
    ensures { IfOk result (λ wide. wide.end ≤ length buffer.new) }
{
    let have = window.end - window.start;
    if wanted <= have {
        return Ok(window);
    }
    buffer.copy_within(window.start..window.end, 0);
    fill(from, buffer, have, wanted)
}

// Whether the window holds a whole record, so that the next one needs no read.
pub fn is_at_hand(buffer: &[u8], window: Window) -> bool
    requires { window.end ≤ length buffer.now }
    ensures { result ≡ leb (window.start + 4 + number_at buffer window.start) window.end }
{
    if window.end - window.start < 4 {
        return false;
    }
    window.start + 4 + numbers::count_at(buffer, window.start) <= window.end
}

// The next record of at most `limit` bytes. The buffer has to hold it whole, with its length in front.
pub fn next_record(
    from: &Source,
    buffer: &mut [u8],
    window: Window,
    limit: usize,
) -> Result<Record, Problem>
    requires { window.end ≤ length buffer.old }
    ensures { IfOk result (λ next. (next.at ≤ next.rest.start) × (next.rest.end ≤ length buffer.new)) }
{
    let begun = widened(from, buffer, window, 4)?;
    let have = begun.end - begun.start;
    if have == 0 {
        return Err(Problem::End);
    }
    if have < 4 {
        return Err(Problem::Torn);
    }
    let length = numbers::count_at(buffer, begun.start);
    if limit < length {
        return Err(Problem::TooLong);
    }
    whole_record(widened(from, buffer, begun, 4 + length)?, length)
}

// The record at the window's start, if all of it is there.
fn whole_record(window: Window, length: usize) -> Result<Record, Problem>
    requires { length + 4 ≤ 4294967300 }
    ensures { IfOk result (λ next. (next.at ≤ next.rest.start) × (next.rest.end ≡ window.end)) }
{
    if window.end - window.start < 4 + length {
        return Err(Problem::Torn);
    }
    let at = window.start + 4;
    Ok(Record {
        at,
        rest: Window {
            start: at + length,
            end: window.end,
        },
    })
}
