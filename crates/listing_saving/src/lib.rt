// What the flag `compact` saves, in words, below a listing. To know it the program is translated once more, with the flag the other way.

#![tactic(auto)]

ghost use Rattle.std.specs.Prelude.{◌≡◌, ◌+◌, ◌-◌, ◌≤◌};
ghost use Rattle.jit.specs.Limits.{longest_page};
ghost use Rattle.text.specs.Lent.{Says, given};
ghost use Rattle.listing_saving.specs.Saving.{saved_line, fits_line, accepted_line, way_of, refused_line, line_of, is_said};
ghost use Rattle.listing_saving.specs.Lent.{other_answer, SaysSaving, ListsSaving};

use jit::{Flags, LONGEST_PAGE, MOST_SLOTS, Mode, Refusal};
use jit_translate::translate::{Accepted, translate};
use listing_lines::write_line;
use streams::Sink;
use text::form::put_form;
use text::text::put_text;

// One byte more than a page may have, so that a page that is too long is refused here as it was there.
const PAGE: usize = LONGEST_PAGE + 1;
// An entry for each slot that a program may have, and one.
const TABLE: usize = MOST_SLOTS + 1;
// No line is longer.
pub const LINE: usize = listing_lines::LINE;
// No sentence of a refusal is longer.
const SENTENCE: usize = 200;

// What the translator answers with the flag the other way. The page and the tables are this function's own.
fn other_answer(
    prog: &[u8],
    flags: Flags,
    mode: Mode,
    ids: &[u32],
    addresses: &[u64],
    size: usize,
) -> Result<Accepted, Refusal>
    requires { size ≤ longest_page + 1 }
    ensures { result ≡ other_answer prog flags mode ids addresses size }
{
    let other = Mode {
        compact: !mode.compact,
        ..mode
    };
    let mut page = [0u8; PAGE];
    let mut locations = [0u32; TABLE];
    let mut fields = [0u32; TABLE];
    let mut targets = [0u32; TABLE];
    let mut kinds = [0u32; TABLE];
    let mut makers = [0u32; TABLE];
    translate(
        prog,
        flags,
        other,
        ids,
        addresses,
        &mut page[..size],
        &mut locations,
        &mut fields,
        &mut targets,
        &mut kinds,
        &mut makers,
    )
}

// `own` bytes of code as it was asked for, `other` with the flag the other way.
fn put_saved(line: &mut [u8], compact: bool, own: usize, other: usize) -> usize
    ensures { Says line 0 result (saved_line compact own other) }
{
    let length = other as u64;
    if compact {
        return put_form(
            line,
            0,
            b"--compact saves # bytes: without it the code has #",
            &[other.saturating_sub(own) as u64, length],
        );
    }
    put_form(
        line,
        0,
        b"--compact would save # bytes: with it the code has #",
        &[own.saturating_sub(other) as u64, length],
    )
}

fn put_fits(line: &mut [u8], other: usize) -> usize
    ensures { Says line 0 result (fits_line other) }
{
    put_form(
        line,
        0,
        b"with --compact it fits: the code has # bytes",
        &[other as u64],
    )
}

fn put_accepted(
    line: &mut [u8],
    compact: bool,
    own: Result<Accepted, Refusal>,
    other: usize,
) -> usize
    ensures { Says line 0 result (accepted_line compact own other) }
{
    match own {
        Ok(accepted) => put_saved(line, compact, accepted.length, other),
        Err(_) => put_fits(line, other),
    }
}

fn put_way(line: &mut [u8], compact: bool) -> usize
    ensures { Says line 0 result (way_of compact) }
{
    if compact {
        return put_text(line, 0, b"without --compact it is refused: ");
    }
    put_text(line, 0, b"with --compact it is refused: ")
}

fn put_refused(line: &mut [u8], prog: &[u8], compact: bool, refusal: Refusal) -> usize
    ensures { Says line 0 result (refused_line (given prog) compact refusal) }
{
    let mut words = [0u8; SENTENCE];
    let number = refusals::number_of(refusal);
    let slot = refusals::slot_of(refusal);
    let end = refusals_text::sentence(prog, number, slot, &mut words);
    let next = put_way(line, compact);
    put_text(line, next, &words[..end])
}

fn put_line(
    line: &mut [u8],
    prog: &[u8],
    compact: bool,
    own: Result<Accepted, Refusal>,
    other: Result<Accepted, Refusal>,
) -> usize
    ensures { Says line 0 result (line_of (given prog) compact own other) }
{
    match other {
        Ok(accepted) => put_accepted(line, compact, own, accepted.length),
        Err(refusal) => put_refused(line, prog, compact, refusal),
    }
}

// Any refusal but for want of room (13) stays with the flag, and none goes away without it.
fn is_said(compact: bool, own: Result<Accepted, Refusal>) -> bool
    ensures { result ≡ is_said compact own }
{
    match own {
        Ok(_) => true,
        Err(refusal) => {
            if compact {
                return false;
            }
            refusals::number_of(refusal) == 13
        }
    }
}

// The line at the start of `line`, without its newline; nothing where nothing is said. `own` is the answer of what was asked for, in a page
// of `size` bytes. The parameters stay those of `translate`, as `SaysSaving` and `ListsSaving` name them.
pub fn put_saving(
    line: &mut [u8],
    prog: &[u8],
    flags: Flags,
    mode: Mode,
    ids: &[u32],
    addresses: &[u64],
    size: usize,
    own: Result<Accepted, Refusal>,
) -> usize
    requires { size ≤ longest_page + 1 }
    ensures { SaysSaving line prog flags mode ids addresses size own result }
{
    let compact = mode.compact;
    if is_said(compact, own) {
        let other = other_answer(prog, flags, mode, ids, addresses, size);
        return put_line(line, prog, compact, own, other);
    }
    0
}

// It stands where what it stands below does: the totals, or the reason of a refusal.
fn place_of<'a>(own: Result<Accepted, Refusal>, output: &'a Sink, reason: &'a Sink) -> &'a Sink {
    match own {
        Ok(_) => output,
        Err(_) => reason,
    }
}

// The line with its newline at the start of `line`, and written out; nothing where nothing is said.
pub fn list_saving(
    rt: &HostRuntime,
    line: &mut [u8],
    prog: &[u8],
    flags: Flags,
    mode: Mode,
    ids: &[u32],
    addresses: &[u64],
    size: usize,
    own: Result<Accepted, Refusal>,
    reason: &Sink,
) -> usize
    requires { size ≤ longest_page + 1 }
    ensures { ListsSaving line prog flags mode ids addresses size own result }
{
    let end = put_saving(line, prog, flags, mode, ids, addresses, size, own);
    if end == 0 {
        return 0;
    }
    let output = streams::output(rt);
    write_line(place_of(own, &output, reason), line, end)
}
