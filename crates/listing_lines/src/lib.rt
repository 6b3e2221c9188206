// A line of the listing, written out, and the lines that need no page: the slots of a refused program. listing_table has the others.

#![tactic(auto)]

ghost use Rattle.std.specs.Prelude.{◌≡◌, [], ◌∷◌, ◌+◌, ◌/◌, min, length};
ghost use Rattle.text.specs.Lent.{Says};
ghost use Rattle.listing_lines.specs.Lines.{bytecode_line};

use ebpf_text::put_slot;
use streams::Sink;
use text::form::put_form;
use text::text::{put_byte, put_padding};

// No line is longer.
pub const LINE: usize = 240;

// Where a slot's bytecode begins in its line.
pub const BYTECODE: usize = 22;

// The line is over: its newline is put, and it is written out.
pub fn write_line(to: &Sink, line: &mut [u8], at: usize) -> usize
    ensures { Says line at result (0x0a ∷ []) }
{
    let end = put_byte(line, at, b'\n');
    if end <= line.len() {
        let _ = streams::write(to, &line[..end]);
    }
    end
}

pub fn finish(rt: &HostRuntime, line: &mut [u8], at: usize) -> usize
    ensures { Says line at result (0x0a ∷ []) }
{
    write_line(&streams::output(rt), line, at)
}

// A slot's line, as `slot 1                goto +90`: its number and its bytecode.
fn list_bytecode(rt: &HostRuntime, line: &mut [u8], prog: &[u8], slot: usize) -> usize
    ensures { Says line 0 result (bytecode_line prog.now slot) }
{
    let next = put_form(line, 0, b"slot #", &[slot as u64]);
    let next = put_padding(line, next, BYTECODE);
    let next = put_slot(line, next, prog, slot);
    finish(rt, line, next)
}

// The slots of a refused program, up to the one that is refused; nothing became of them. The answer is how many are listed.
pub fn list_slots(rt: &HostRuntime, prog: &[u8], until: usize) -> usize
    ensures { result ≡ min (until + 1) (length prog.now / 8) }
{
    let mut line = [0u8; LINE];
    let slots = prog.len() / 8;
    for slot in 0..slots {
        if until < slot {
            return slot;
        }
        list_bytecode(rt, &mut line, prog, slot);
    }
    slots
}
