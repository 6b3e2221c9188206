// Writes perf's map of the page that becomes of the bytecode in a file or on standard input: a line START SIZE NAME for the prologue, for each
// slot that has code and for the epilogue, of a page that lies at the base address. A refusal writes nothing there and a line on standard
// error, as `refused 15 0`: its number and its slot.

#![tactic(auto)]

ghost use Rattle.std.specs.Prelude.{◌+◌, ◌≤◌};
ghost use Rattle.jit.specs.Limits.{longest_page};

use cases_bytes::answer::put_refused_line;
use cases_bytes::output::write_first;
use jit::{MOST_HELPERS, MOST_SLOTS};
use jit_mapping::mapped::translate_mapped;
use jit_mapping::{LONGEST_LINE, Refusal, number_of, slot_of};
use listing_options::filter::{INPUT, read_filter};
use listing_options::help::{HELP, explain_options};
use listing_options::options::{LARGEST, Options, Program, read_options};
use listing_options::place::{Base, read_base};

// An entry for each slot that the input can hold, and one.
const TABLE: usize = MOST_SLOTS + 1;
// A line for each slot, the prologue and the epilogue.
const TEXT: usize = LONGEST_LINE * (MOST_SLOTS + 2);
// A refusal's line fits.
const LINE: usize = 48;

fn explain(rt: &HostRuntime) {
    streams::show(
        rt,
        b"map BASE [OPTIONS] [FILE]: perf's map of the page for the bytecode in FILE, or on standard input, on standard output.\n",
    );
    streams::show(
        rt,
        b"BASE is the page's address, in hexadecimal with or without 0x. A refusal goes to standard error, as: refused NUMBER SLOT.\n",
    );
    let mut options = [0u8; HELP];
    explain_options(rt, &mut options, Program::Map);
    streams::show(
        rt,
        b"N, ID and ADDRESS are decimal, or hexadecimal behind 0x.\n",
    );
}

fn report(rt: &HostRuntime, refusal: Refusal) {
    let mut line = [0u8; LINE];
    let number = number_of(refusal);
    let slot = slot_of(refusal);
    let end = put_refused_line(&mut line, number, slot);
    streams::tell(rt, &line[..end]);
}

// Of the page the first bytes are lent, as many as the options say.
fn map_lent(
    rt: &HostRuntime,
    base: u64,
    program: &[u8],
    options: Options,
    ids: &[u32],
    addresses: &[u64],
)
    requires { options.page ≤ longest_page + 1 }
{
    let size = options.page;
    let mut page = [0u8; LARGEST];
    let mut locations = [0u32; TABLE];
    let mut fields = [0u32; TABLE];
    let mut targets = [0u32; TABLE];
    let mut kinds = [0u32; TABLE];
    let mut makers = [0u32; TABLE];
    let mut text = [0u8; TEXT];
    match translate_mapped(
        program,
        options.flags,
        options.mode,
        ids,
        addresses,
        &mut page[..size],
        &mut locations,
        &mut fields,
        &mut targets,
        &mut kinds,
        &mut makers,
        base,
        &mut text,
    ) {
        Ok(accepted) => write_first(
            rt,
            &text,
            accepted.text,
            b"the translator answers a length beyond the text\n",
        ),
        Err(refusal) => report(rt, refusal),
    }
}

fn map_filter(rt: &HostRuntime, base: u64, options: Options, ids: &[u32], addresses: &[u64])
    requires { options.page ≤ longest_page + 1 }
{
    let mut input = [0u8; INPUT];
    if let Some(length) = read_filter(rt, options.file, &mut input) {
        map_lent(rt, base, &input[..length], options, ids, addresses);
    }
}

// The options stand behind the base address.
fn map_at(rt: &HostRuntime, base: u64) {
    let mut ids = [0u32; MOST_HELPERS];
    let mut addresses = [0u64; MOST_HELPERS];
    let options = read_options(rt, Program::Map, 2, &mut ids, &mut addresses);
    if options.wrong {
        return;
    }
    if options.help {
        explain(rt);
        return;
    }
    let n = options.helpers;
    map_filter(rt, base, options, &ids[..n], &addresses[..n]);
}

fn main(rt: HostRuntime) {
    let mut word = streams::word_room();
    match read_base(&rt, Program::Map, &mut word) {
        Base::At(base) => map_at(&rt, base),
        Base::Help => explain(&rt),
        Base::Unclear => (),
    }
}
