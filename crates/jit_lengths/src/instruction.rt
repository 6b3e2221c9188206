// The length of each form of instruction, as the emitters write it.
ghost use Rattle.std.specs.Prelude.{◌≡◌, ℕ, ◌+◌, ◌<◌, ◌≤◌, length};
ghost use Rattle.x86.specs.Encode.{wide_size, rex_rule, rex, memory, load_opcode, prefix66, store_rex, imm_bytes, encode_plain};
ghost use Rattle.x86.specs.Instr.{alu_imm, mov_imm, load, store, store_imm, MOV};
ghost use Rattle.base.specs.declared.Width.TheVariants.{W32, W64};
ghost use Rattle.jit.specs.Constants.{load_imm, loaded};
ghost use Rattle.jit_lengths.specs.Lengths.{Rexed};

use base::{Size, Width};
use jit::Mode;
use jit_recording::mode;
use x86::FORCED;

// The one rule for the REX prefix: it is left out where none of its bits is set, unless it is forced.
fn rex_rule_length(force: bool, w: u8, r: u8, b: u8) -> usize
    requires { (w < 2) × ((r < 16) × (b < 16)) }
    ensures { (result ≡ length (rex_rule «force» w r b)) × (result ≤ 1) }
{
    if !force && 8 * w + 4 * (r / 8) + b / 8 == 0 {
        0
    } else {
        1
    }
}

// .. where nothing forces it.
pub fn rex_length(w: u8, r: u8, b: u8) -> usize
    requires { (w < 2) × ((r < 16) × (b < 16)) }
    ensures { (result ≡ length (rex w r b)) × (result ≤ 1) }
{
    rex_rule_length(!FORCED, w, r, b)
}

// A REX prefix and `rest` bytes.
pub fn rexed_length(width: Width, r: u8, b: u8, rest: usize) -> usize
    requires { (r < 16) × ((b < 16) × (rest ≤ 16)) }
    ensures { Rexed width r b rest result × (result ≤ 17) }
{
    rex_length(x86_emit::alu::wide(width), r, b) + rest
}

// ModRM and displacement, whatever stands in reg.
pub fn memory_length(base: u8, disp: u32) -> usize
    ensures { ((reg : ℕ) → result ≡ length (memory reg base disp)) × (result ≤ 5) }
{
    if x86_emit::memory::bare(base, disp) {
        1
    } else if x86_emit::memory::short(disp) {
        2
    } else {
        5
    }
}

// REX.W
fn wide_size(size: Size) -> u8
    ensures { (result ≡ wide_size size) × (result < 2) }
{
    match size {
        Size::S8 | Size::S16 | Size::S32 => 0,
        Size::S64 => 1,
    }
}

fn load_opcode_length(size: Size) -> usize
    ensures { (result ≡ length (load_opcode size)) × (result ≤ 2) }
{
    match size {
        Size::S8 | Size::S16 => 2,
        Size::S32 | Size::S64 => 1,
    }
}

pub fn load_length(size: Size, base: u8, dst: u8, disp: u32) -> usize
    requires { (base < 16) × (dst < 16) }
    ensures { (result ≡ length (encode_plain (load size base dst disp))) × (result ≤ 8) }
{
    let rex = rex_length(wide_size(size), dst, base);
    rex + (load_opcode_length(size) + memory_length(base, disp))
}

// The 16-bit override.
fn prefix_length(size: Size) -> usize
    ensures { (result ≡ length (prefix66 size)) × (result ≤ 1) }
{
    match size {
        Size::S16 => 1,
        Size::S8 | Size::S32 | Size::S64 => 0,
    }
}

// A store of a register's byte forces its REX prefix.
fn store_rex_length(size: Size, src: u8, base: u8) -> usize
    requires { (src < 16) × (base < 16) }
    ensures { (result ≡ length (store_rex size src base)) × (result ≤ 1) }
{
    match size {
        Size::S8 => rex_rule_length(FORCED, 0, src, base),
        Size::S16 | Size::S32 => rex_length(0, src, base),
        Size::S64 => rex_length(1, src, base),
    }
}

pub fn store_length(size: Size, src: u8, base: u8, disp: u32) -> usize
    requires { (src < 16) × (base < 16) }
    ensures { (result ≡ length (encode_plain (store size src base disp))) × (result ≤ 8) }
{
    let rex = store_rex_length(size, src, base);
    prefix_length(size) + (rex + (1 + memory_length(base, disp)))
}

fn imm_length(size: Size) -> usize
    ensures { ((i : ℕ) → result ≡ length (imm_bytes size i)) × (result ≤ 4) }
{
    match size {
        Size::S8 => 1,
        Size::S16 => 2,
        Size::S32 | Size::S64 => 4,
    }
}

pub fn store_imm_length(size: Size, base: u8, disp: u32) -> usize
    requires { base < 16 }
    ensures { ((i : ℕ) → result ≡ length (encode_plain (store_imm size base disp i))) × (result ≤ 12) }
{
    let rex = rex_length(wide_size(size), 0, base);
    prefix_length(size) + (rex + (1 + (memory_length(base, disp) + imm_length(size))))
}

// B8+r with four bytes.
fn low_length(dst: u8) -> usize
    requires { dst < 16 }
    ensures { ((imm : ℕ) → result ≡ length (encode_plain (mov_imm W32 dst imm))) × (result ≤ 6) }
{
    rex_length(0, 0, dst) + 5
}

// An immediate, which is extended by its sign: four bytes; compact, without REX.W where it is not negative.
pub fn load_signed_length(mode: Mode, dst: u8, imm: u32) -> usize
    requires { dst < 16 }
    ensures { (result ≡ length (encode_plain (loaded mode (alu_imm MOV W64 dst imm)))) × (result ≤ 7) }
{
    if mode::is_low_imm(mode, imm) {
        low_length(dst)
    } else {
        7
    }
}

// A constant of 64 bits, in the signed 32-bit range such an immediate; any other takes eight bytes, or compact, below 2 ^ 32, four.
pub fn load_imm_length(mode: Mode, dst: u8, value: u64) -> usize
    requires { dst < 16 }
    ensures { (result ≡ length (encode_plain (loaded mode (load_imm dst value)))) × (result ≤ 10) }
{
    if std::num::wrapping_add_u64(value, 0x8000_0000) < 0x1_0000_0000 {
        return load_signed_length(mode, dst, (value % 0x1_0000_0000) as u32);
    }
    if mode::is_low(mode, value) {
        return low_length(dst);
    }
    10
}
