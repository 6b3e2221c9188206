// A line of a page's map: how long its text is, and the text, written where there is room for it.
ghost use Rattle.std.specs.Prelude.{◌≡◌, ◌≤◌, length};
ghost use Rattle.text.specs.Lent.{Says, HasRoom, given};
ghost use Rattle.text.specs.Numerals.{hex};
ghost use Rattle.code.specs.Lines.{line};
ghost use Rattle.map.specs.MapText.{name_of, text_of};
ghost use Rattle.map.specs.Room.{any_line};

use code::Piece;
use text::digits::{Pairs, count_decimal, count_hex};

// `prologue` and `epilogue`, and `slot_`.
const FRAME_NAME: usize = 8;

const SLOT_NAME: usize = 5;

fn name_length(piece: Piece) -> usize
    ensures { (result ≡ length (name_of piece)) × (result ≤ 25) }
{
    match piece {
        Piece::Prologue | Piece::Epilogue => FRAME_NAME,
        Piece::Slot(slot) => SLOT_NAME + count_decimal(slot.number as u64),
    }
}

// A piece without bytes has no line. Beside the three fields a line has two spaces and its end.
pub fn line_length(start: u64, bytes: u64, piece: Piece) -> usize
    ensures { (result ≡ length (text_of (line start bytes piece))) × (result ≤ any_line) }
{
    if bytes == 0 {
        return 0;
    }
    count_hex(start) + count_hex(bytes) + name_length(piece) + 3
}

// A text where there is room for all of it. With `copy_from_slice`, which asks at run time which end to begin at, a line takes five
// instructions more.
fn put_whole(out: &mut [u8], at: usize, text: &[u8]) -> usize
    requires { HasRoom out at (length text.now) }
    ensures { Says out at result (given text) }
{
    let mut next = at;
    for &x in text {
        out[next] = x;
        next += 1;
    }
    next
}

fn put_name(out: &mut [u8], at: usize, pairs: &Pairs, piece: Piece) -> usize
    requires { HasRoom out at (length (name_of piece)) }
    ensures { Says out at result (name_of piece) }
{
    match piece {
        Piece::Prologue => put_whole(out, at, b"prologue"),
        Piece::Slot(slot) => {
            let named = put_whole(out, at, b"slot_");
            pairs.put_decimal(out, named, slot.number as u64)
        }
        Piece::Epilogue => put_whole(out, at, b"epilogue"),
    }
}

// `digits` says how many the start has.
pub fn put_line(
    out: &mut [u8],
    at: usize,
    pairs: &Pairs,
    digits: usize,
    start: u64,
    bytes: u64,
    piece: Piece,
) -> usize
    requires digits { digits ≡ length (hex start) }
    requires has_room { HasRoom out at (length (text_of (line start bytes piece))) }
    ensures { Says out at result (text_of (line start bytes piece)) }
{
    if bytes == 0 {
        return at;
    }
    let started = pairs.put_hex_counted(out, at, digits, start);
    let size = put_whole(out, started, b" ");
    let sized = pairs.put_hex(out, size, bytes);
    let name = put_whole(out, sized, b" ");
    let named = put_name(out, name, pairs, piece);
    put_whole(out, named, b"\n")
}
