// The lines of the listing: a slot, what became of it, and where it jumps. Positions are offsets in the page, in hexadecimal.
ghost use Rattle.std.specs.Prelude.{◌≡◌};

use ebpf_text::put_slot;
use jit::{ANCHOR, CONDITIONAL, LOCAL_CALL, PLAIN};
use listing_lines::{BYTECODE, LINE, finish};
use text::form::put_form;
use text::number::put_hex_byte;
use text::text::{put_byte, put_padding, put_text};
use x86_instructions::Instruction;
use x86_reader::decode::decode;
use x86_text::instruction::put_instruction;

// The columns of a slot's line, beside its bytecode's, and of an instruction's.
const AT: usize = 11;

const DESTINATION: usize = 54;

const BYTES: usize = 12;

const INSTRUCTION: usize = 44;

// What the translator answered of the page.
#[derive(Clone, Copy)]
pub struct Totals {
    pub slots: usize,
    pub length: usize,
    pub jumps: usize,
    pub page: usize,
    // Where the epilogue begins.
    pub exit: usize,
}

// An accepted program's page, the tables of it, and what was answered.
#[derive(Clone, Copy)]
pub struct Page<'a> {
    pub code: &'a [u8],
    pub locations: &'a [u32],
    pub targets: &'a [u32],
    pub kinds: &'a [u32],
    pub makers: &'a [u32],
    pub totals: Totals,
}

// An entry of a table, or 0 behind its end.
fn entry(table: &[u32], k: usize) -> u32 {
    table.get(k).copied().unwrap_or(0)
}

fn put_bytes(line: &mut [u8], at: usize, code: &[u8], from: usize, to: usize) -> usize {
    let mut next = at;
    for byte in code.get(from..to.min(code.len())).unwrap_or(&[]) {
        next = put_hex_byte(line, next, *byte);
        next = put_byte(line, next, b' ');
    }
    next
}

fn put_position(line: &mut [u8], code: &[u8], at: usize, end: usize) -> usize {
    let next = put_padding(line, 0, 4);
    let next = put_form(line, next, b"0x$", &[at as u64]);
    let next = put_padding(line, next, BYTES);
    let next = put_bytes(line, next, code, at, end);
    put_padding(line, next, INSTRUCTION)
}

fn list_known(
    rt: &HostRuntime,
    line: &mut [u8],
    code: &[u8],
    at: usize,
    i: Instruction,
    end: usize,
) {
    let next = put_position(line, code, at, end);
    let next = put_instruction(line, next, i, end);
    finish(rt, line, next);
}

// The instruction at a place, as the reader reads it; the answer is the place behind it.
fn list_instruction(rt: &HostRuntime, line: &mut [u8], code: &[u8], at: usize) -> usize {
    match decode(code, at) {
        Some((i, end)) => {
            list_known(rt, line, code, at, i, end);
            end
        }
        None => {
            let next = put_position(line, code, at, at);
            let next = put_text(line, next, b"(no instruction that is known)");
            finish(rt, line, next);
            at
        }
    }
}

fn list_code(rt: &HostRuntime, line: &mut [u8], code: &[u8], from: usize, to: usize) {
    let mut at = from;
    while at < to {
        let next = list_instruction(rt, line, code, at);
        if next <= at {
            return;
        }
        at = next;
    }
}

impl Page<'_> {
    // Where a slot's code begins; 0 where it has none.
    fn location(&self, slot: usize) -> usize {
        entry(self.locations, slot) as usize
    }

    // Where the next slot that has a location begins, or the epilogue.
    fn end_of(&self, slot: usize) -> usize {
        for k in slot..self.totals.slots {
            let location = self.location(k + 1);
            if 0 < location {
                return location;
            }
        }
        self.totals.exit
    }

    // The first jump of a maker, if it has one.
    fn jump_of(&self, maker: usize) -> Option<usize> {
        for j in 0..self.totals.jumps {
            if entry(self.makers, j) as usize == maker {
                return Some(j);
            }
        }
        None
    }

    fn put_destination(&self, line: &mut [u8], at: usize, target: u32) -> usize {
        let next = put_padding(line, at, DESTINATION);
        if target == ANCHOR {
            return put_form(
                line,
                next,
                b" -> the exit at 0x$",
                &[self.totals.exit as u64],
            );
        }
        let location = self.location(target as usize);
        put_form(
            line,
            next,
            b" -> slot # at 0x$",
            &[target as u64, location as u64],
        )
    }

    // Where the jump of a maker goes, and its kind, if it has one.
    fn put_jump(&self, line: &mut [u8], at: usize, maker: usize) -> usize {
        let Some(jump) = self.jump_of(maker) else {
            return at;
        };
        let next = self.put_destination(line, at, entry(self.targets, jump));
        put_kind(line, next, entry(self.kinds, jump))
    }

    fn list_slot(&self, rt: &HostRuntime, line: &mut [u8], prog: &[u8], slot: usize) {
        let from = self.location(slot);
        if from == 0 {
            list_second_half(rt, line, slot);
            return;
        }
        let next = put_slot_line(line, prog, slot, from);
        let next = self.put_jump(line, next, slot);
        finish(rt, line, next);
        list_code(rt, line, self.code, from, self.end_of(slot));
    }

    // Its jump is no slot's: the maker is the number behind the last.
    fn list_prologue(&self, rt: &HostRuntime, line: &mut [u8]) {
        let slots = self.totals.slots;
        let to = if slots == 0 {
            self.totals.exit
        } else {
            self.location(0)
        };
        let next = put_frame_line(line, b"prologue", 0);
        let next = self.put_jump(line, next, slots);
        finish(rt, line, next);
        list_code(rt, line, self.code, 0, to);
    }

    fn list_epilogue(&self, rt: &HostRuntime, line: &mut [u8]) {
        let next = put_frame_line(line, b"epilogue", self.totals.exit);
        finish(rt, line, next);
        list_code(rt, line, self.code, self.totals.exit, self.totals.length);
    }

    // The whole page of an accepted program; the answer is how many slots are listed.
    pub fn list(&self, rt: &HostRuntime, prog: &[u8]) -> usize
        ensures { result ≡ self.now.totals.slots }
    {
        let mut line = [0u8; LINE];
        self.list_prologue(rt, &mut line);
        let mut listed = 0;
        for slot in 0..self.totals.slots {
            self.list_slot(rt, &mut line, prog, slot);
            listed += 1;
        }
        self.list_epilogue(rt, &mut line);
        list_totals(rt, &mut line, self.totals);
        listed
    }
}

// The translator writes no fourth kind; if it did, the line would not call it one of the three.
fn put_kind(line: &mut [u8], at: usize, kind: u32) -> usize {
    match kind {
        CONDITIONAL => put_text(line, at, b", conditional"),
        PLAIN => put_text(line, at, b", plain"),
        LOCAL_CALL => put_text(line, at, b", local call"),
        _ => put_text(line, at, b", of no known kind"),
    }
}

fn put_slot_line(line: &mut [u8], prog: &[u8], slot: usize, location: usize) -> usize {
    let next = put_form(line, 0, b"slot #", &[slot as u64]);
    let next = put_padding(line, next, AT);
    let next = put_form(line, next, b"at 0x$", &[location as u64]);
    let next = put_padding(line, next, BYTECODE);
    put_slot(line, next, prog, slot)
}

fn list_second_half(rt: &HostRuntime, line: &mut [u8], slot: usize) {
    let next = put_form(line, 0, b"slot #", &[slot as u64]);
    let next = put_padding(line, next, BYTECODE);
    let next = put_text(line, next, b"(second half of the wide load)");
    finish(rt, line, next);
}

fn put_frame_line(line: &mut [u8], name: &[u8], location: usize) -> usize {
    let next = put_text(line, 0, name);
    let next = put_padding(line, next, AT);
    put_form(line, next, b"at 0x$", &[location as u64])
}

fn list_totals(rt: &HostRuntime, line: &mut [u8], totals: Totals) {
    let next = put_form(
        line,
        0,
        b"slots: #, bytes: # of #, jumps: # (the prologue's among them)",
        &[
            totals.slots as u64,
            totals.length as u64,
            totals.page as u64,
            totals.jumps as u64,
        ],
    );
    finish(rt, line, next);
}
