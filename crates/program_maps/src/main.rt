// Reads cases from standard input, as the program `answers` does, and writes to standard output the map of each page, at the base address that
// is the first argument, or the line that tells its refusal. How many bytes are lent for the text is the second argument, where there is one.
// What it writes of its stored cases is compared in the gate: every refusal of a map, at the last page and text that are taken and at the first
// that are not.

#![tactic(auto)]

use cases_bytes::answer::put_refused_line;
use cases_bytes::limits;
use cases_bytes::parts::Case;
use cases_bytes::turn::{each_record, show_case};
use jit::MOST_SLOTS;
use jit_mapping::mapped::translate_mapped;
use jit_mapping::{Accepted, LONGEST_LINE, Refusal, number_of, slot_of};
use listing_options::options::{Program, SENTENCE, complain};
use listing_options::place::{Base, read_base};

// The longest case fits, with its length.
const INPUT: usize = 4 + limits::CASE;

// A line for each slot, the prologue and the epilogue.
const TEXT: usize = LONGEST_LINE * (MOST_SLOTS + 2);

// No line of its own is longer.
const LINE: usize = 64;

// What the arguments ask for: where each page lies, and how many bytes are lent for its map.
#[derive(Clone, Copy)]
struct Asked {
    base: u64,
    room: usize,
}

fn explain(rt: &HostRuntime) {
    streams::show(
        rt,
        b"maps BASE [ROOM] <CASES: of each case the map of its page at BASE, or its refusal. ROOM bytes are lent for the text.\n",
    );
    streams::show(
        rt,
        b"BASE is hexadecimal, with or without 0x; ROOM is decimal, or hexadecimal behind 0x, and enough for every map unless said.\n",
    );
}

fn show_refusal(rt: &HostRuntime, refusal: Refusal) {
    let mut line = [0u8; LINE];
    let number = number_of(refusal);
    let slot = slot_of(refusal);
    let end = put_refused_line(&mut line, number, slot);
    streams::show(rt, &line[..end]);
}

fn show_text(rt: &HostRuntime, text: &[u8], length: usize) {
    if text.len() < length {
        streams::show(rt, b"the translator answers a length beyond the text\n");
        return;
    }
    streams::show(rt, &text[..length]);
}

fn show_answer(rt: &HostRuntime, answer: Result<Accepted, Refusal>, text: &[u8]) {
    match answer {
        Ok(accepted) => show_text(rt, text, accepted.text),
        Err(refusal) => show_refusal(rt, refusal),
    }
}

// Of a longer page or table than there is the whole is lent, which the translator cannot tell, and of more room for the text than the longest
// map takes that much.
fn show_map(
    rt: &HostRuntime,
    asked: Asked,
    program: &[u8],
    case: Case,
    ids: &[u32],
    addresses: &[u64],
) {
    let mut text = [0u8; TEXT];
    let text = &mut text[..asked.room.min(TEXT)];
    let mut page = [0u8; limits::PAGE];
    let mut locations = [0u32; limits::TABLE];
    let mut fields = [0u32; limits::TABLE];
    let mut targets = [0u32; limits::TABLE];
    let mut kinds = [0u32; limits::TABLE];
    let mut makers = [0u32; limits::TABLE];
    let answer = translate_mapped(
        program,
        case.flags,
        case.mode,
        ids,
        addresses,
        &mut page[..case.code.min(limits::PAGE)],
        &mut locations[..case.locations.min(limits::TABLE)],
        &mut fields[..case.fields.min(limits::TABLE)],
        &mut targets[..case.targets.min(limits::TABLE)],
        &mut kinds[..case.kinds.min(limits::TABLE)],
        &mut makers[..case.makers.min(limits::TABLE)],
        asked.base,
        text,
    );
    show_answer(rt, answer, text);
}

fn room_in(rt: &HostRuntime, word: &[u8]) -> Option<u64> {
    let room = listing_arguments::number_of(word);
    if room.is_none() {
        let mut line = [0u8; SENTENCE];
        complain(
            rt,
            &mut line,
            Program::Maps,
            b"the room for the text is not a number: ",
            word,
        );
    }
    room
}

// The second argument, or enough for every map; nothing where it is no number.
fn read_room(rt: &HostRuntime) -> Option<u64> {
    if streams::word_count(rt) < 3 {
        return Some(TEXT as u64);
    }
    let mut word = streams::word_room();
    let n = streams::word_or_empty(rt, 2, &mut word);
    room_in(rt, &word[..n])
}

fn show_at(rt: &HostRuntime, base: u64) {
    let Some(room) = read_room(rt) else {
        return;
    };
    let asked = Asked {
        base,
        room: room as usize,
    };
    let mut input = [0u8; INPUT];
    each_record(rt, b"case", &mut input, limits::CASE, |index, body| {
        show_case(rt, index, body, |case, program, ids, addresses| {
            show_map(rt, asked, program, case, ids, addresses)
        })
    });
}

fn main(rt: HostRuntime) {
    let mut word = streams::word_room();
    match read_base(&rt, Program::Maps, &mut word) {
        Base::At(base) => show_at(&rt, base),
        Base::Help => explain(&rt),
        Base::Unclear => (),
    }
}
