// The bytes themselves: `emit_bytes!` and the REX prefix of the Rust. A whole word is stored at once, and what it leaves behind the
// bytes that are meant is written over by whoever comes next.
ghost use Rattle.std.specs.Prelude.{◌≡◌, ◌+◌, ◌^◌, ◌<◌, ◌≤◌, ◌++◌, length};
ghost use Rattle.base.specs.Bytes.{bytes_of, le32, le64};
ghost use Rattle.x86.specs.Encode.{rex_rule, rex, modrm};
ghost use Rattle.x86_emit.specs.Lent.{Wrote, Stores};

use base::Position;
use x86::{FORCED, REX, REX_W};

// Four bytes, lowest first, and no more: a jump's field, filled in.
pub fn store4(code: &mut [u8], at: usize, x: u32)
    requires { at + 4 ≤ length code.old }
    ensures { Stores code at (le32 x) }
{
    code[at..at + 4].copy_from_slice(&x.to_le_bytes());
}

// Eight bytes, lowest first: compiled they are one store.
pub fn store8(code: &mut [u8], at: usize, x: u64)
    requires { at + 8 ≤ length code.old }
    ensures { Stores code at (le64 x) }
{
    code[at..at + 8].copy_from_slice(&x.to_le_bytes());
}

// The lowest `size` bytes of `data`.
pub fn emit_bytes(code: &mut [u8], at: Position, data: u64, size: usize) -> Position
    requires { (at.offset + 8 ≤ length code.old) × (size ≤ 8) }
    ensures { Wrote code at result (bytes_of size «data») }
{
    store8(code, at.offset, data);
    Position {
        offset: at.offset + size,
    }
}

// The one rule for the REX prefix, and what follows it: a prefix where one of its bits is set or where it is forced, then the lowest
// `size` bytes of `rest`.
pub fn emit_rex_rule(
    code: &mut [u8],
    at: Position,
    force: bool,
    w: u8,
    r: u8,
    b: u8,
    rest: u64,
    size: usize,
) -> Position
    requires { (at.offset + 8 ≤ length code.old) × ((size ≤ 7) × ((w < 2) × ((r < 16) × ((b < 16) × (rest < 2 ^ 56))))) }
    ensures { Wrote code at result (rex_rule «force» w r b ++ bytes_of size rest) }
{
    let bits = 4 * (r / 8) + b / 8;
    // At 64 bits there always is one: it is not tested for.
    if w == 1 {
        return emit_bytes(code, at, REX_W + bits as u64 + 256 * rest, size + 1);
    }
    if !force && bits == 0 {
        return emit_bytes(code, at, rest, size);
    }
    emit_bytes(code, at, REX + bits as u64 + 256 * rest, size + 1)
}

// `emit_basic_rex` and what follows it: nothing forces the prefix.
pub fn emit_rexed(
    code: &mut [u8],
    at: Position,
    w: u8,
    r: u8,
    b: u8,
    rest: u64,
    size: usize,
) -> Position
    requires { (at.offset + 8 ≤ length code.old) × ((size ≤ 7) × ((w < 2) × ((r < 16) × ((b < 16) × (rest < 2 ^ 56))))) }
    ensures { Wrote code at result (rex w r b ++ bytes_of size rest) }
{
    emit_rex_rule(code, at, !FORCED, w, r, b, rest, size)
}

// The ModRM byte.
pub fn modrm(m: u64, r: u8, b: u8) -> u64
    requires { m < 4 }
    ensures { (result ≡ modrm m r b) × (result < 256) }
{
    64 * m + 8 * ((r % 8) as u64) + (b % 8) as u64
}
