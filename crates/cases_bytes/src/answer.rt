// The bytes of an answer, and the line that tells a refusal.
ghost use Rattle.std.specs.Prelude.{◌≡◌, ◌+◌, ◌*◌, ◌≤◌, min, length};
ghost use Rattle.text.specs.Lent.{Says};
ghost use Rattle.cases_bytes.specs.Lent.{held, Put, Stored, refused_fits, accepted_fits, has_room, entries_in, tables_of, accepted_bytes};
ghost use Rattle.cases_bytes.specs.Answers.{refused_bytes, entries, accepted_head, refused_line, refusal_line};
ghost use Rattle.cases_bytes.specs.Limits.{lent_page, lent_table};

use crate::{limits, numbers};
use jit::Refusal;
use text::form::put_form;
use text::text::put_byte;

// The line by which a program tells a refusal: its number and its slot, with the newline. 48 bytes hold it.
pub fn put_refused_line(out: &mut [u8], number: u8, slot: usize) -> usize
    ensures { Says out 0 result (refused_line number slot) }
{
    let end = put_form(out, 0, b"refused # #", &[number as u64, slot as u64]);
    put_byte(out, end, b'\n')
}

// The same of a refusal of the translator.
pub fn put_refusal_line(out: &mut [u8], refusal: Refusal) -> usize
    ensures { Says out 0 result (refusal_line refusal) }
{
    let number = refusals::number_of(refusal);
    put_refused_line(out, number, refusals::slot_of(refusal))
}

// The entries of a table, four bytes each, and the next place.
fn put_table(out: &mut [u8], at: usize, table: &[u32]) -> usize
    requires { at + 4 * length table.now ≤ length out.old }
    ensures { Put out at result (entries (held table)) }
{
    for (i, entry) in table.iter().enumerate() {
        numbers::put_number(out, at + 4 * i, *entry);
    }
    at + 4 * table.len()
}

// The code, and the next place.
fn put_code(out: &mut [u8], at: usize, code: &[u8]) -> usize
    requires { at + length code.now ≤ length out.old }
    ensures { Put out at result (held code) }
{
    let end = at + code.len();
    out[at..end].copy_from_slice(code);
    end
}

// A slot's number in the answer's four bytes. No program has a slot that does not fit.
fn slot_number(x: usize) -> u32
    ensures { result ≡ min x 4294967295 }
{
    u32::try_from(x).unwrap_or(u32::MAX)
}

// A refusal: its number and its slot. Answers how many bytes it is, or 0 where they do not fit.
pub fn put_refused(out: &mut [u8], refusal: Refusal) -> usize
    ensures { Stored (refused_fits out) out result (refused_bytes refusal) }
{
    if out.len() < 9 {
        return 0;
    }
    let a = numbers::put_number(out, 0, 5);
    let b = numbers::put_byte(out, a, refusals::number_of(refusal));
    numbers::put_number(out, b, slot_number(refusals::slot_of(refusal)))
}

// What stands in front of the code: the length of the rest, and how much there is of each part. `all` is how many entries the tables have
// together.
fn put_lengths(out: &mut [u8], code: usize, ends: usize, jumps: usize, all: usize) -> usize
    requires { (17 ≤ length out.old) × ((code ≤ lent_page) × ((ends ≤ lent_table) × ((jumps ≤ lent_table) × (all ≤ 5 * lent_table)))) }
    ensures { Put out 0 result (accepted_head code ends jumps all) }
{
    let total = 13 + code + 4 * all;
    let a = numbers::put_number(out, 0, total as u32);
    let b = numbers::put_byte(out, a, 0);
    let c = numbers::put_number(out, b, code as u32);
    let d = numbers::put_number(out, c, jumps as u32);
    numbers::put_number(out, d, ends as u32)
}

// What a translation writes that is shown, each part just as long as it is: the kinds and makers of all jumps, or none.
#[derive(Clone, Copy)]
pub struct Translation<'a> {
    pub code: &'a [u8],
    pub locations: &'a [u32],
    pub fields: &'a [u32],
    pub targets: &'a [u32],
    pub kinds: &'a [u32],
    pub makers: &'a [u32],
}

// Whether there is room for the longest answer, and no part is longer than what is lent at most.
fn is_room(out: usize, of: Translation) -> bool
    ensures { result ≡ has_room out of.entry }
{
    if out < limits::ANSWER {
        return false;
    }
    if limits::PAGE < of.code.len() {
        return false;
    }
    if limits::TABLE < of.locations.len() {
        return false;
    }
    if limits::TABLE < of.fields.len() {
        return false;
    }
    if limits::TABLE < of.targets.len() {
        return false;
    }
    if limits::TABLE < of.kinds.len() {
        return false;
    }
    of.makers.len() <= limits::TABLE
}

// The tables, one behind the other, and the next place.
fn put_tables(out: &mut [u8], at: usize, of: Translation) -> usize
    requires { at + 4 * entries_in of ≤ length out.old }
    ensures { Put out at result (tables_of of.entry) }
{
    let a = put_table(out, at, of.locations);
    let b = put_table(out, a, of.fields);
    let c = put_table(out, b, of.targets);
    let d = put_table(out, c, of.kinds);
    put_table(out, d, of.makers)
}

// A translation. Answers how many bytes it is, or 0 where they do not fit.
pub fn put_accepted(out: &mut [u8], of: Translation) -> usize
    ensures { Stored (accepted_fits out of.entry) out result (accepted_bytes of.entry) }
{
    if !is_room(out.len(), of) {
        return 0;
    }
    let all = of.locations.len()
        + of.fields.len()
        + of.targets.len()
        + of.kinds.len()
        + of.makers.len();
    let counted = put_lengths(out, of.code.len(), of.locations.len(), of.fields.len(), all);
    let at = put_code(out, counted, of.code);
    put_tables(out, at, of)
}
