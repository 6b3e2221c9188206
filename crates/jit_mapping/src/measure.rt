// How long a map's text is, before a byte of it or of the page is written.
ghost use Rattle.std.specs.Prelude.{◌≡◌, ◌+◌, ◌<◌, ◌^◌};
ghost use Rattle.jit.specs.Lent.{filter_in, filter_of};
ghost use Rattle.jit.specs.Passes.{WithinLimits};
ghost use Rattle.jit.specs.Translation.{slots_wide};
ghost use Rattle.jit_measuring.specs.Looks.{wide_of};
ghost use Rattle.jit_mapping.specs.Passes.{Accepted, text_length};

use base::{Position, Slot};
use code::Piece;
use ebpf::kind::Opcodes;
use jit::Mode;
use jit_measuring::measure::{Next, measure_slot};
use map::line::line_length;

// The slot that comes next.
fn behind(slot: Slot, next: Next) -> Slot
    requires { slot.number < 2 ^ 16 }
    ensures { result.number ≡ slot.number + slots_wide (wide_of next) }
{
    let wide = match next {
        Next::Following | Next::Lost => 1,
        Next::Wide => 2,
    };
    Slot {
        number: slot.number + wide,
    }
}

// Of a program that is accepted on a page of so many bytes, its first slot's code at `start`.
pub fn text_length(
    opcodes: &Opcodes,
    prog: &[u8],
    mode: Mode,
    ids: &[u32],
    addresses: &[u64],
    page: usize,
    start: Position,
    base: u64,
) -> usize
    requires limits { WithinLimits prog ids addresses page start }
    requires accepted { Accepted (filter_in prog mode ids addresses) page start base }
    ensures { result ≡ text_length (filter_of prog mode ids addresses) page start base }
{
    let n = prog.len() / 8;
    let mut slot = Slot { number: 0 };
    let mut at = start;
    let mut length = line_length(base, start.offset as u64, Piece::Prologue);
    // No range: `behind` gives the next slot, one on or two.
    while slot.number < n {
        let seen = measure_slot(opcodes, prog, mode, ids, addresses, n, slot).unwrap();
        let begins = base + at.offset as u64;
        length += line_length(begins, seen.size as u64, Piece::Slot(slot));
        at = Position {
            offset: at.offset + seen.size,
        };
        slot = behind(slot, seen.next);
    }
    let exit = base + at.offset as u64;
    length + line_length(exit, jit::EPILOGUE_SIZE as u64, Piece::Epilogue)
}
