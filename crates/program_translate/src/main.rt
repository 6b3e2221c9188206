// Translates the bytecode on standard input for a page of 4,096 bytes, with no helpers and both flags false, and writes the code to
// standard output; the argument --standard asks for standard mode, --compact for compact constants. A refusal writes nothing there and a
// line on standard error, as `refused 6 0`: its number and its slot.

#![tactic(auto)]

use cases_bytes::answer::put_refusal_line;
use cases_bytes::output::write_first;
use cases_bytes::stream;
use jit::{Flags, LONGEST_PROGRAM, MOST_SLOTS, Mode, Refusal, SHORTEST_PAGE};
use jit_translate::translate::translate;
use listing_arguments::{Word, mode_with, word_of};

// One byte more than a program may have: a longer one is refused for it, however long it is.
const INPUT: usize = LONGEST_PROGRAM + 1;
// An entry for each slot that the input can hold, and one.
const TABLE: usize = MOST_SLOTS + 1;

// Of a word that is not known standard error says so.
fn unclear(rt: &HostRuntime, word: &[u8]) -> Option<Mode> {
    streams::tell(rt, b"translate: unknown argument ");
    streams::tell(rt, word);
    streams::tell(rt, b" (there are only --standard and --compact)\n");
    None
}

// The mode with what a word asks for; two words are known.
fn with_word(rt: &HostRuntime, mode: Mode, word: &[u8]) -> Option<Mode> {
    let asked = word_of(word);
    match asked {
        Word::Standard | Word::Compact => Some(mode_with(mode, asked)),
        _ => unclear(rt, word),
    }
}

fn with_argument(rt: &HostRuntime, mode: Mode, index: usize) -> Option<Mode> {
    let mut word = streams::word_room();
    let n = streams::word_or_empty(rt, index, &mut word);
    with_word(rt, mode, &word[..n])
}

// The mode that the arguments ask for; nothing where one of them is not known.
fn read_arguments(rt: &HostRuntime) -> Option<Mode> {
    let mut mode = Mode {
        standard: false,
        compact: false,
    };
    for i in 1..streams::word_count(rt) {
        mode = with_argument(rt, mode, i)?;
    }
    Some(mode)
}

fn report(rt: &HostRuntime, refusal: Refusal) {
    let mut line = [0u8; 48];
    let end = put_refusal_line(&mut line, refusal);
    streams::tell(rt, &line[..end]);
}

fn answer(rt: &HostRuntime, program: &[u8], mode: Mode) {
    let mut page = [0u8; SHORTEST_PAGE];
    let mut locations = [0u32; TABLE];
    let mut fields = [0u32; TABLE];
    let mut targets = [0u32; TABLE];
    let mut kinds = [0u32; TABLE];
    let mut makers = [0u32; TABLE];
    let flags = Flags {
        use_mbuff: false,
        update_data_ptr: false,
    };
    let ids: [u32; 0] = [];
    let addresses: [u64; 0] = [];
    match translate(
        program,
        flags,
        mode,
        &ids,
        &addresses,
        &mut page,
        &mut locations,
        &mut fields,
        &mut targets,
        &mut kinds,
        &mut makers,
    ) {
        Ok(accepted) => write_first(
            rt,
            &page,
            accepted.length,
            b"the translator answers a length beyond the page\n",
        ),
        Err(refusal) => report(rt, refusal),
    }
}

fn translate_input(rt: &HostRuntime, mode: Mode) {
    let mut input = [0u8; INPUT];
    match stream::fill(&streams::input(rt), &mut input, 0, INPUT) {
        Ok(read) => answer(rt, &input[..read.end], mode),
        Err(reason) => streams::fail(rt, b"standard input", reason),
    }
}

fn main(rt: HostRuntime) {
    if let Some(mode) = read_arguments(&rt) {
        translate_input(&rt, mode);
    }
}
