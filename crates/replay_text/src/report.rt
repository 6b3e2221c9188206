// The report of a replay: how many packets there were and how the run of each ended, and a row for each slot, a profile of the filter.
ghost use Rattle.std.specs.Prelude.{◌≡◌, ◌-◌, ◌≤◌, get_or};
ghost use Rattle.text.specs.Lent.{Says, given};
ghost use Rattle.text.specs.Numerals.{most_digits};
ghost use Rattle.jit.specs.Translation.{slots_of};
ghost use Rattle.replay_text.specs.ReportText.{right_text, totals_text, row_text, row_unless, largest_of, columns_of, table_text, report_text};
ghost use Rattle.replay_text.specs.ReportText.{Narrow};

use ebpf::constants::INSN_SIZE;
use ebpf_text::put_slot;
use replay::Totals;
use replay_slots::opens;
use text::digits::{MOST_DIGITS, count_decimal};
use text::form::put_form;
use text::number::put_decimal;
use text::text::{put_byte, put_text};

// How many characters a slot's number and how often it ran take.
#[derive(Clone, Copy)]
pub struct Columns {
    pub slot: usize,
    pub count: usize,
}

// A number with spaces in front, so that it ends where all of its column do.
fn put_right(out: &mut [u8], at: usize, width: usize, n: u64) -> usize
    requires { width ≤ most_digits }
    ensures { Says out at result (right_text width n) }
{
    let digits = count_decimal(n);
    if width <= digits {
        return put_decimal(out, at, n);
    }
    let spaces = [b' '; MOST_DIGITS];
    let missing = width - digits;
    let next = put_text(out, at, &spaces[..missing]);
    put_decimal(out, next, n)
}

// A line for each of the totals, and an empty one.
pub fn put_totals(out: &mut [u8], at: usize, totals: Totals) -> usize
    ensures { Says out at result (totals_text totals) }
{
    put_form(
        out,
        at,
        b"packets #\nkept #\ndropped #\nstopped by the step limit #\nstopped by an access #\nstopped at no slot #\n\n",
        &[
            totals.packets,
            totals.kept,
            totals.dropped,
            totals.step_limit,
            totals.access,
            totals.no_slot,
        ],
    )
}

// A slot's row: its number, how often it ran, and its assembler text.
pub fn put_row(
    out: &mut [u8],
    at: usize,
    prog: &[u8],
    columns: Columns,
    slot: usize,
    count: u64,
) -> usize
    requires { Narrow columns }
    ensures { Says out at result (row_text (given prog) columns slot count) }
{
    let number = put_right(out, at, columns.slot, slot as u64);
    let between = put_text(out, number, b"  ");
    let times = put_right(out, between, columns.count, count);
    let behind = put_text(out, times, b"  ");
    let text = put_slot(out, behind, prog, slot);
    put_byte(out, text, b'\n')
}

fn largest_of(counts: &[u64]) -> u64
    ensures { result ≡ largest_of (given counts) }
{
    let mut largest = 0;
    for count in counts {
        largest = largest.max(*count);
    }
    largest
}

fn last_slot(prog: &[u8]) -> usize
    ensures { result ≡ slots_of (given prog) - 1 }
{
    (prog.len() / INSN_SIZE).saturating_sub(1)
}

// As wide as the number of the last slot, and as the largest count.
pub fn columns_of(prog: &[u8], counts: &[u64]) -> Columns
    ensures value { result ≡ columns_of (given prog) (given counts) }
    ensures narrow { Narrow result }
{
    let last = last_slot(prog) as u64;
    let largest = largest_of(counts);
    Columns {
        slot: count_decimal(last),
        count: count_decimal(largest),
    }
}

// How often a slot ran; a slot that is not in the table, never.
fn count_at(counts: &[u64], slot: usize) -> u64
    ensures { result ≡ get_or (given counts) slot 0 }
{
    counts.get(slot).copied().unwrap_or(0)
}

// The second half of a wide load has no row.
fn put_row_unless(
    out: &mut [u8],
    at: usize,
    prog: &[u8],
    columns: Columns,
    counts: &[u64],
    slot: usize,
    second: bool,
) -> usize
    requires { Narrow columns }
    ensures { Says out at result (row_unless (given prog) columns (given counts) slot second) }
{
    if second {
        return at;
    }
    put_row(out, at, prog, columns, slot, count_at(counts, slot))
}

// A row for each slot that begins an instruction.
pub fn put_table(out: &mut [u8], at: usize, prog: &[u8], counts: &[u64]) -> usize
    ensures { Says out at result (table_text (given prog) (given counts)) }
{
    let columns = columns_of(prog, counts);
    let slots = prog.len() / INSN_SIZE;
    let mut next = at;
    let mut second = false;
    for slot in 0..slots {
        next = put_row_unless(out, next, prog, columns, counts, slot, second);
        second = opens(second, prog[8 * slot]);
    }
    next
}

// The whole report.
pub fn put_report(out: &mut [u8], at: usize, prog: &[u8], totals: Totals, counts: &[u64]) -> usize
    ensures { Says out at result (report_text (given prog) totals (given counts)) }
{
    let next = put_totals(out, at, totals);
    put_table(out, next, prog, counts)
}
