// A refusal in words, as `slot 3: unknown opcode 0x06 (refusal 8)`: where, why, and its number in docs/REFUSALS.md. Whoever tells
// an operator of a refusal says this sentence; it stands here alone. A refusal is its number here, since `ndakoleem_sentence` takes one from
// C, and any that there is has a sentence.

#![tactic(auto)]

ghost use Rattle.std.specs.Prelude.{◌≡◌};
ghost use Rattle.text.specs.Lent.{Says, given};
ghost use Rattle.refusals_text.specs.Sentences.{torn, bad_register, no_room, target_from, bad_target};
ghost use Rattle.refusals_text.specs.Sentences.{is_of_slot, place_of, size_reason, opcode_reason, slot_reason};
ghost use Rattle.refusals_text.specs.Sentences.{map_reason, replay_reason, reason_of};
ghost use Rattle.refusals_text.specs.Lent.{Sentence};

use ebpf::constants::{CALL, INSN_SIZE};
use ebpf::insn::Insn;
use ebpf_fields::fields_at;
use text::form::put_form;
use text::number::extended;
use text::text::put_text;

// The limits, as they are said.
const SHORTEST_PAGE: u64 = jit::SHORTEST_PAGE as u64;

const LONGEST_PAGE: u64 = jit::LONGEST_PAGE as u64;

const LONGEST_PROGRAM: u64 = jit::LONGEST_PROGRAM as u64;

const MOST_HELPERS: u64 = jit::MOST_HELPERS as u64;

const LONGEST_PACKET: u64 = pcap::LONGEST_PACKET as u64;

// Of a number that no refusal has.
const NO_REASON: &[u8] = b"refused for a reason that has no name";

#[tactic(auto, unfolding(crate::specs::Sentences::torn))]
fn put_torn(out: &mut [u8], at: usize, prog: &[u8], slot: usize) -> usize
    ensures { Says out at result (torn (given prog) slot) }
{
    if prog.len() / INSN_SIZE <= slot {
        let left = (prog.len() % INSN_SIZE) as u64;
        return put_form(out, at, b"only # of its 8 bytes are there", &[left]);
    }
    put_text(out, at, b"a wide load, whose second slot is not all there")
}

#[tactic(auto, unfolding(crate::specs::Sentences::bad_register))]
fn put_bad_register(out: &mut [u8], at: usize, insn: Insn) -> usize
    ensures { Says out at result (bad_register insn) }
{
    let dst = u64::from(insn.dst);
    let src = u64::from(insn.src);
    if 10 < dst {
        return put_form(
            out,
            at,
            b"register r# in the dst field, the last is r10",
            &[dst],
        );
    }
    put_form(
        out,
        at,
        b"register r# in the src field, the last is r10",
        &[src],
    )
}

#[tactic(auto, unfolding(crate::specs::Sentences::no_room))]
fn put_no_room(out: &mut [u8], at: usize, prog: &[u8], slot: usize) -> usize
    ensures { Says out at result (no_room (given prog) slot) }
{
    let end = prog.len() / INSN_SIZE;
    if slot == end {
        return put_text(out, at, b"the epilogue runs past the end of the page");
    }
    put_text(out, at, b"its code runs past the end of the page")
}

// The slot that a jump goes to, in two's complement.
#[tactic(auto, unfolding(crate::specs::Sentences::target_from))]
fn target_from(slot: usize, distance: u32) -> u64
    ensures { result ≡ target_from slot distance }
{
    (slot as u64)
        .wrapping_add(1)
        .wrapping_add(extended(distance))
}

#[tactic(auto, unfolding(crate::specs::Sentences::bad_target))]
fn put_bad_target(out: &mut [u8], at: usize, prog: &[u8], slot: usize, insn: Insn) -> usize
    ensures { Says out at result (bad_target (given prog) slot insn) }
{
    let end = (prog.len() / INSN_SIZE) as u64;
    if insn.opc == CALL {
        let target = target_from(slot, insn.imm);
        return put_form(
            out,
            at,
            b"a local call to slot ~, the program ends at #",
            &[target, end],
        );
    }
    let target = target_from(slot, insn.off);
    put_form(
        out,
        at,
        b"a jump to slot ~, the program ends at #",
        &[target, end],
    )
}

// 6 to 14, and 19; the others are of no slot.
#[tactic(auto, unfolding(crate::specs::Sentences::is_of_slot))]
fn is_of_slot(number: u8) -> bool
    ensures { result ≡ is_of_slot number }
{
    matches!(number, 6..=14 | 19)
}

#[tactic(auto, unfolding(crate::specs::Sentences::place_of))]
fn put_place(out: &mut [u8], at: usize, number: u8, slot: usize) -> usize
    ensures { Says out at result (place_of number slot) }
{
    if is_of_slot(number) {
        return put_form(out, at, b"slot #: ", &[slot as u64]);
    }
    at
}

// Refusals 1 to 5.
#[tactic(auto, unfolding(crate::specs::Sentences::size_reason))]
fn put_size_reason(out: &mut [u8], at: usize, prog: &[u8], number: u8) -> usize
    ensures { Says out at result (size_reason (given prog) number) }
{
    let length = prog.len() as u64;
    let entries = (prog.len() / INSN_SIZE) as u64 + 1;
    match number {
        1 => put_form(
            out,
            at,
            b"the page is too short: the least is # bytes",
            &[SHORTEST_PAGE],
        ),
        2 => put_form(
            out,
            at,
            b"the page is too long: the most is # bytes",
            &[LONGEST_PAGE],
        ),
        3 => put_form(
            out,
            at,
            b"the program is too long: it has # bytes, the most is #",
            &[length, LONGEST_PROGRAM],
        ),
        4 => put_form(
            out,
            at,
            b"a table is too short: this program needs # entries in each",
            &[entries],
        ),
        5 => put_form(
            out,
            at,
            b"the helper lists differ in length, are longer than #, or hold an id twice",
            &[MOST_HELPERS],
        ),
        _ => put_text(out, at, NO_REASON),
    }
}

// Refusals 8 to 12.
#[tactic(auto, unfolding(crate::specs::Sentences::opcode_reason))]
fn put_opcode_reason(out: &mut [u8], at: usize, number: u8, insn: Insn) -> usize
    ensures { Says out at result (opcode_reason number insn) }
{
    let opc = u64::from(insn.opc);
    let src = u64::from(insn.src);
    let imm = insn.imm;
    match number {
        8 => put_form(out, at, b"unknown opcode 0x@", &[opc]),
        9 => put_form(out, at, b"opcode 0x@ is known and not translated", &[opc]),
        10 => put_form(
            out,
            at,
            b"a byte swap of ~ bits, where only 16, 32 and 64 are known",
            &[extended(imm)],
        ),
        11 => put_form(
            out,
            at,
            b"a call of helper #, which is not listed",
            &[u64::from(imm)],
        ),
        12 => put_form(
            out,
            at,
            b"a call with # in the src field, where only 0 (a helper) and 1 (a local call) are known",
            &[src],
        ),
        _ => put_text(out, at, NO_REASON),
    }
}

// Refusals 6 to 14.
#[tactic(auto, unfolding(crate::specs::Sentences::slot_reason))]
fn put_slot_reason(
    out: &mut [u8],
    at: usize,
    prog: &[u8],
    number: u8,
    slot: usize,
    insn: Insn,
) -> usize
    ensures { Says out at result (slot_reason (given prog) number slot insn) }
{
    match number {
        6 => put_torn(out, at, prog, slot),
        7 => put_bad_register(out, at, insn),
        13 => put_no_room(out, at, prog, slot),
        14 => put_bad_target(out, at, prog, slot, insn),
        _ => put_opcode_reason(out, at, number, insn),
    }
}

// Refusals 15 and 16, of the page's map.
#[tactic(auto, unfolding(crate::specs::Sentences::map_reason))]
fn put_map_reason(out: &mut [u8], at: usize, number: u8) -> usize
    ensures { Says out at result (map_reason number) }
{
    match number {
        15 => put_text(
            out,
            at,
            b"the page's base address is too high: with the code's length it is above 0xffffffffffffffff",
        ),
        16 => put_text(
            out,
            at,
            b"the text buffer is too short for the page's map: 30 bytes for each slot and 60 more are enough",
        ),
        _ => put_text(out, at, NO_REASON),
    }
}

// Refusals 17 to 19, of a replay.
#[tactic(auto, unfolding(crate::specs::Sentences::replay_reason))]
fn put_replay_reason(out: &mut [u8], at: usize, number: u8, insn: Insn) -> usize
    ensures { Says out at result (replay_reason number insn) }
{
    let opc = u64::from(insn.opc);
    match number {
        17 => put_text(
            out,
            at,
            b"the capture does not begin with the header of a libpcap file",
        ),
        18 => put_form(
            out,
            at,
            b"a packet's record in the capture is cut short, or says more than # bytes",
            &[LONGEST_PACKET],
        ),
        19 => put_form(
            out,
            at,
            b"opcode 0x@ is not replayed: calls, and packet loads of the modes ABS and IND, are not run",
            &[opc],
        ),
        _ => put_text(out, at, NO_REASON),
    }
}

#[tactic(auto, unfolding(crate::specs::Sentences::reason_of))]
fn put_reason(out: &mut [u8], at: usize, prog: &[u8], number: u8, slot: usize) -> usize
    ensures { Says out at result (reason_of (given prog) number slot) }
{
    match number {
        0..=5 => put_size_reason(out, at, prog, number),
        6..=14 => put_slot_reason(out, at, prog, number, slot, fields_at(prog, slot)),
        15 | 16 => put_map_reason(out, at, number),
        17.. => put_replay_reason(out, at, number, fields_at(prog, slot)),
    }
}

// The sentence for refusal `number` at `slot` of `prog`, at the start of `out`, cut where it does not fit. The answer is its length, at most
// 200 (`sentence_enough`); in so many bytes it stands whole.
pub fn sentence(prog: &[u8], number: u8, slot: usize, out: &mut [u8]) -> usize
    ensures { Sentence prog number slot out result }
{
    let next = put_place(out, 0, number, slot);
    let next = put_reason(out, next, prog, number, slot);
    put_form(out, next, b" (refusal #)", &[u64::from(number)])
}
