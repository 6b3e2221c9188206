// Lists what becomes of the bytecode in a file or on standard input: each slot, its place in the page, its machine instructions and where it
// jumps. A refused program gets its slots up to the refusal; the reason goes to standard error.

#![tactic(auto)]

ghost use Rattle.std.specs.Prelude.{◌+◌, ◌≤◌};
ghost use Rattle.jit.specs.Limits.{longest_page};

use jit::{MOST_HELPERS, MOST_SLOTS};
use listing_options::filter::{INPUT, read_filter};
use listing_options::help::{HELP, explain_options};
use listing_options::options::{LARGEST, Options, Program, read_options};
use listing_saving::list_saving;
use listing_table::list_filter;

// An entry for each slot that the input can hold, and one.
const TABLE: usize = MOST_SLOTS + 1;

fn explain(rt: &HostRuntime) {
    streams::show(
        rt,
        b"listing [OPTIONS] [FILE]: what becomes of the bytecode in FILE, or on standard input, on standard output.\n",
    );
    streams::show(
        rt,
        b"A refused filter shows its slots up to the refusal; the reason goes to standard error.\n",
    );
    let mut options = [0u8; HELP];
    explain_options(rt, &mut options, Program::Listing);
    streams::show(rt, b"Numbers are decimal, or hexadecimal behind 0x.\n");
}

// Of the page the first bytes are lent, as many as the options say.
fn list_lent(rt: &HostRuntime, program: &[u8], options: Options, ids: &[u32], addresses: &[u64])
    requires { options.page ≤ longest_page + 1 }
{
    let size = options.page;
    let mut page = [0u8; LARGEST];
    let mut locations = [0u32; TABLE];
    let mut fields = [0u32; TABLE];
    let mut targets = [0u32; TABLE];
    let mut kinds = [0u32; TABLE];
    let mut makers = [0u32; TABLE];
    let reason = streams::errors(rt);
    let answer = list_filter(
        rt,
        program,
        options.flags,
        options.mode,
        ids,
        addresses,
        &mut page[..size],
        &mut locations,
        &mut fields,
        &mut targets,
        &mut kinds,
        &mut makers,
        &reason,
    );
    let mut line = [0u8; listing_saving::LINE];
    list_saving(
        rt,
        &mut line,
        program,
        options.flags,
        options.mode,
        ids,
        addresses,
        size,
        answer,
        &reason,
    );
}

fn list(rt: &HostRuntime, options: Options, ids: &[u32], addresses: &[u64])
    requires { options.page ≤ longest_page + 1 }
{
    let mut input = [0u8; INPUT];
    if let Some(length) = read_filter(rt, options.file, &mut input) {
        list_lent(rt, &input[..length], options, ids, addresses);
    }
}

fn main(rt: HostRuntime) {
    let mut ids = [0u32; MOST_HELPERS];
    let mut addresses = [0u64; MOST_HELPERS];
    let options = read_options(&rt, Program::Listing, 1, &mut ids, &mut addresses);
    if options.wrong {
        return;
    }
    if options.help {
        explain(&rt);
        return;
    }
    let n = options.helpers;
    list(&rt, options, &ids[..n], &addresses[..n]);
}
