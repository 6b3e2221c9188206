// What stands ahead of an instruction's constants: REX and the opcode, ModRM and its displacement.
ghost use Rattle.std.specs.Prelude.{◌≡◌, ◌/◌, ◌%◌};
ghost use Rattle.x86.specs.Decode.{no_rex, rex_of, reg_number, low_number, signed8};
ghost use Rattle.x86_encoding.specs.Operand.{rex_is, none_at};
ghost use Rattle.x86_encoding.specs.Lent.{Heads, ReadsShort, Displaces, Operands};

use crate::bytes;
use base::Width;

// REX: whether there is one, the width that W says, and whether R and B are set. `there` stands beside them, and no `Option` round them,
// since the definition's own record has it, and without a REX the others are read too: 32 bits, and neither bit.
#[derive(Clone, Copy)]
pub struct Rex {
    pub there: bool,
    pub width: Width,
    pub r: bool,
    pub b: bool,
}

// What mod and r/m name: a register, or the memory at a base register and a displacement.
#[derive(Clone, Copy, PartialEq, Eq, Debug)]
pub enum Operand {
    Register(u8),
    Memory(u8, u32),
}

// ModRM: its reg, and the operand.
#[derive(Clone, Copy, PartialEq, Eq, Debug)]
pub struct Modrm {
    pub reg: u8,
    pub operand: Operand,
}

fn width_of(bits: u8) -> Width
    ensures { result ≡ (rex_of bits).width }
{
    if 8 <= bits {
        return Width::W64;
    }
    Width::W32
}

// Of its low four bits, WRXB.
fn rex_of(bits: u8) -> Rex
    ensures { rex_is result ≡ rex_of bits }
{
    Rex {
        there: true,
        width: width_of(bits),
        r: bits / 4 % 2 == 1,
        b: bits % 2 == 1,
    }
}

fn no_rex() -> Rex
    ensures { rex_is result ≡ no_rex }
{
    Rex {
        there: false,
        width: Width::W32,
        r: false,
        b: false,
    }
}

// The REX, 40 to 4F, or none, the opcode right behind it, and the place behind that.
pub fn head_at(code: &[u8], at: usize) -> Option<(Rex, u8, usize)>
    ensures { Heads code at result }
{
    let (b, next) = bytes::byte_at(code, at)?;
    if b / 16 == 0x4 {
        let (opcode, end) = bytes::byte_at(code, next)?;
        return Some((rex_of(b % 16), opcode, end));
    }
    Some((no_rex(), b, next))
}

// The register in ModRM's reg, and the one in the low three bits of ModRM or of the opcode.
fn reg_number(x: Rex, m: u8) -> u8
    ensures { result ≡ reg_number (rex_is x) m }
{
    if x.r {
        return 8 + m / 8 % 8;
    }
    m / 8 % 8
}

pub fn low_number(x: Rex, b: u8) -> u8
    ensures { result ≡ low_number (rex_is x) b }
{
    if x.b {
        return 8 + b % 8;
    }
    b % 8
}

// A displacement of one byte, extended to 32 bits by its sign.
fn extended(b: u8) -> u32
    ensures { result ≡ signed8 b }
{
    if b < 0x80 {
        return u32::from(b);
    }
    0xffff_ff00 + u32::from(b)
}

fn short_at(code: &[u8], at: usize) -> Option<(u32, usize)>
    ensures { ReadsShort code at result }
{
    let (b, next) = bytes::byte_at(code, at)?;
    Some((extended(b), next))
}

// No displacement: mod 0, whose r/m 5 would be RIP-relative.
fn none_at(at: usize, m: u8) -> Option<(u32, usize)>
    ensures { result ≡ none_at m at }
{
    if m % 8 == 5 {
        return None;
    }
    Some((0, at))
}

// The displacement that the ModRM m asks for.
fn displacement_at(code: &[u8], at: usize, m: u8) -> Option<(u32, usize)>
    requires { (¬ (m / 64 ≡ 3)) × (¬ (m % 8 ≡ 4)) }
    ensures { Displaces code at m result }
{
    match m / 64 {
        2 => bytes::four_at(code, at),
        1 => short_at(code, at),
        0 => none_at(at, m),
        _ => None,
    }
}

// ModRM, and the displacement behind it. A SIB byte, r/m 4, is not read.
pub fn modrm_at(code: &[u8], at: usize, x: Rex) -> Option<(Modrm, usize)>
    ensures { Operands code at x result }
{
    let (m, next) = bytes::byte_at(code, at)?;
    let reg = reg_number(x, m);
    let low = low_number(x, m);
    if m / 64 == 3 {
        return Some((
            Modrm {
                reg,
                operand: Operand::Register(low),
            },
            next,
        ));
    }
    if m % 8 == 4 {
        return None;
    }
    let (displacement, end) = displacement_at(code, next, m)?;
    Some((
        Modrm {
            reg,
            operand: Operand::Memory(low, displacement),
        },
        end,
    ))
}
