// The map's text, off the table of locations of the page that is written.
ghost use Rattle.std.specs.Prelude.{◌≡◌, ◌+◌, ◌≤◌, ◌<◌, ◌^◌, length};
ghost use Rattle.jit.specs.Room.{epilogue_size};
ghost use Rattle.jit_mapping.specs.Rows.{piece_at};
ghost use Rattle.jit_mapping.specs.Passes.{Counted, Closing, Closed, place_at, WithRoom, SaysRows};

use base::Slot;
use code::Piece;
use map::line::put_line;
use text::digits::{Pairs, Width};

// The piece whose end is not known yet, where it begins in the page, where its line begins in the text, and how wide the addresses are so far.
#[derive(Clone, Copy)]
pub struct Open {
    pub piece: Piece,
    pub from: usize,
    pub next: usize,
    pub width: Width,
}

// An entry ends the piece before it, unless it is 0, as that of a second half.
fn close(
    text: &mut [u8],
    pairs: &Pairs,
    base: u64,
    begun: Open,
    place: usize,
    opened: Piece,
) -> Open
    requires { Counted base begun × Closing text base begun place }
    ensures { Counted base result × Closed text base begun place opened result }
{
    if place == 0 {
        return begun;
    }
    let piece = begun.piece;
    let start = base + begun.from as u64;
    let bytes = (place - begun.from) as u64;
    let width = begun.width.widen(start);
    let next = put_line(text, begun.next, pairs, width.digits, start, bytes, piece);
    Open {
        piece: opened,
        from: place,
        next,
        width,
    }
}

// Behind the locations of n slots come the places where the epilogue begins and where it ends.
fn place_at(locations: &[u32], n: usize, exit: usize, k: usize) -> usize
    requires { (n ≤ length locations.now) × ((exit + epilogue_size < 2 ^ 64) × (k < n + 2)) }
    ensures { result ≡ place_at locations n exit k }
{
    if k < n {
        return locations[k] as usize;
    }
    if k == n {
        return exit;
    }
    exit + jit::EPILOGUE_SIZE
}

fn piece_at(n: usize, k: usize) -> Piece
    ensures { result ≡ piece_at n k }
{
    if k < n {
        return Piece::Slot(Slot { number: k });
    }
    Piece::Epilogue
}

// n is the number of slots, `exit` where the epilogue begins.
pub fn write_map(locations: &[u32], n: usize, exit: usize, base: u64, text: &mut [u8]) -> usize
    requires { WithRoom locations n exit base text × (n < 2 ^ 16) }
    ensures { SaysRows locations n exit base text result }
{
    let pairs = Pairs::new();
    let mut begun = Open {
        piece: Piece::Prologue,
        from: 0,
        next: 0,
        width: Width::one_digit(),
    };
    for k in 0..n + 2 {
        let place = place_at(locations, n, exit, k);
        let opened = piece_at(n, k);
        begun = close(text, &pairs, base, begun, place, opened);
    }
    begun.next
}
