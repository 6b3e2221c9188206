// Reads cases from standard input, as the program `answers` does, and writes to standard output what the programs say of each: its listing,
// with the reason of a refusal, and the line by which `translate` tells a refusal. What it writes of its stored cases is compared in the
// gate: every form of a slot, of an instruction and of a refusal.

#![tactic(auto)]

ghost use Rattle.std.specs.Prelude.{◌+◌, ◌≤◌};
ghost use Rattle.jit.specs.Limits.{longest_page};

use cases_bytes::answer::put_refusal_line;
use cases_bytes::limits;
use cases_bytes::parts::Case;
use cases_bytes::turn::{each_record, show_case};
use jit::Refusal;
use jit_translate::translate::Accepted;
use listing_saving::list_saving;
use listing_table::list_filter;

// The longest case fits, with its length.
const INPUT: usize = 4 + limits::CASE;

// No line of its own is longer.
const LINE: usize = 64;

fn show_refusal(rt: &HostRuntime, refusal: Refusal) {
    let mut line = [0u8; LINE];
    let end = put_refusal_line(&mut line, refusal);
    streams::show(rt, &line[..end]);
}

fn show_answer(rt: &HostRuntime, answer: Result<Accepted, Refusal>) {
    if let Err(refusal) = answer {
        show_refusal(rt, refusal);
    }
}

// Of a longer table than there is the whole is lent, which the translator cannot tell.
fn list_lent(
    rt: &HostRuntime,
    program: &[u8],
    case: Case,
    ids: &[u32],
    addresses: &[u64],
    size: usize,
) -> Result<Accepted, Refusal>
    requires { size ≤ longest_page + 1 }
{
    let mut page = [0u8; limits::PAGE];
    let mut locations = [0u32; limits::TABLE];
    let mut fields = [0u32; limits::TABLE];
    let mut targets = [0u32; limits::TABLE];
    let mut kinds = [0u32; limits::TABLE];
    let mut makers = [0u32; limits::TABLE];
    list_filter(
        rt,
        program,
        case.flags,
        case.mode,
        ids,
        addresses,
        &mut page[..size],
        &mut locations[..case.locations.min(limits::TABLE)],
        &mut fields[..case.fields.min(limits::TABLE)],
        &mut targets[..case.targets.min(limits::TABLE)],
        &mut kinds[..case.kinds.min(limits::TABLE)],
        &mut makers[..case.makers.min(limits::TABLE)],
        &streams::output(rt),
    )
}

// Of a longer page than there is the whole is lent, as of a table.
fn show_filter(rt: &HostRuntime, program: &[u8], case: Case, ids: &[u32], addresses: &[u64]) {
    let size = case.code.min(limits::PAGE);
    let answer = list_lent(rt, program, case, ids, addresses, size);
    let mut line = [0u8; listing_saving::LINE];
    list_saving(
        rt,
        &mut line,
        program,
        case.flags,
        case.mode,
        ids,
        addresses,
        size,
        answer,
        &streams::output(rt),
    );
    show_answer(rt, answer);
}

fn main(rt: HostRuntime) {
    let mut input = [0u8; INPUT];
    each_record(&rt, b"case", &mut input, limits::CASE, |index, body| {
        show_case(&rt, index, body, |case, program, ids, addresses| {
            show_filter(&rt, program, case, ids, addresses)
        })
    });
}
