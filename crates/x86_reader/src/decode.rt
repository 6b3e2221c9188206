// From the first byte of an instruction to its end: the prefix 66, REX, the opcode and its form. `decode` is what users call.
ghost use Rattle.std.specs.Prelude.{◌≡◌, ◌∷◌, ◌/◌, ◌<◌, ◌≤◌};
ghost use Rattle.base.specs.Pick.{pick};
ghost use Rattle.x86.specs.Instr.{jump};
ghost use Rattle.x86.specs.Decode.{bad, got, number, opcode, opcode16};
ghost use Rattle.x86.specs.Decode as X;
ghost use Rattle.x86_encoding.specs.Operand.{rex_is};
ghost use Rattle.x86_instructions.specs.Instructions.{jump_of};
ghost use Rattle.x86_instructions.specs.Lent.{Reads};
ghost use Rattle.x86_reader.specs.Opcodes.{Other};
ghost use Rattle.x86_reader.specs.Lent.{Onward};

use crate::groups;
use base::{Size, Width};
use x86_encoding::operand::Rex;
use x86_encoding::{bytes, operand};
use x86_instructions::{Alu, Instruction, Jump, size_of};

// The opcodes that name a register in their low three bits, by the others: 50+r, 58+r, B8+r, and C8+r behind 0F.
const PUSH: u8 = 0x50 / 8;

const POP: u8 = 0x58 / 8;

const MOV_IMM: u8 = 0xb8 / 8;

const BSWAP: u8 = 0xc8 / 8;

// 0F B6 and 0F B7, the loads that extend
fn extending_at(code: &[u8], at: usize, x: Rex, o: u8) -> Option<(Instruction, usize)>
    requires { (¬ (o / 16 ≡ 0x8)) × (¬ (o / 8 ≡ 0xc8 / 8)) }
    ensures { Reads code at (λ l. opcode (rex_is x) 0x0f (o ∷ l)) result }
{
    match x.width {
        Width::W64 => None,
        Width::W32 => match o {
            0xb6 => x86_forms::load_at(code, at, x, Size::S8),
            0xb7 => x86_forms::load_at(code, at, x, Size::S16),
            _ => None,
        },
    }
}

// The second byte of 0F: 80+cc, BSWAP C8+r, and the loads.
fn two_bytes_at(code: &[u8], at: usize, x: Rex) -> Option<(Instruction, usize)>
    ensures { Reads code at (opcode (rex_is x) 0x0f) result }
{
    let (o, next) = bytes::byte_at(code, at)?;
    if o / 16 == 0x8 {
        return x86_forms::conditional_at(code, next, x, o);
    }
    if o / 8 == BSWAP {
        return Some((Instruction::Bswap(x.width, operand::low_number(x, o)), next));
    }
    extending_at(code, next, x, o)
}

// The opcodes below 40.
fn low_opcode_at(code: &[u8], at: usize, x: Rex, o: u8) -> Option<(Instruction, usize)>
    requires { o < 0x40 }
    ensures { Reads code at (opcode (rex_is x) o) result }
{
    match o {
        0x01 => x86_forms::alu_at(code, at, x, Alu::Add),
        0x09 => x86_forms::alu_at(code, at, x, Alu::Or),
        0x0f => two_bytes_at(code, at, x),
        0x21 => x86_forms::alu_at(code, at, x, Alu::And),
        0x29 => x86_forms::alu_at(code, at, x, Alu::Sub),
        0x31 => x86_forms::alu_at(code, at, x, Alu::Xor),
        0x39 => x86_forms::alu_at(code, at, x, Alu::Cmp),
        _ => None,
    }
}

// 88: without a REX it would store AH, CH, DH or BH for 4 to 7.
fn store_register_byte_at(code: &[u8], at: usize, x: Rex) -> Option<(Instruction, usize)>
    ensures { Reads code at (opcode (rex_is x) 0x88) result }
{
    if x.there {
        return x86_forms::store_at(code, at, x, Size::S8);
    }
    None
}

// 8B
fn load_word_at(code: &[u8], at: usize, x: Rex) -> Option<(Instruction, usize)>
    ensures { Reads code at (opcode (rex_is x) 0x8b) result }
{
    x86_forms::load_at(code, at, x, size_of(x.width))
}

// B8+r
fn constant_at(code: &[u8], at: usize, x: Rex, o: u8) -> Option<(Instruction, usize)>
    requires { o / 8 ≡ 0xb8 / 8 }
    ensures { Reads code at (opcode (rex_is x) o) result }
{
    x86_forms::mov_imm_at(code, at, x.width, operand::low_number(x, o))
}

// The opcodes of 40 to BF that name a register themselves.
fn in_opcode_at(code: &[u8], at: usize, x: Rex, o: u8) -> Option<(Instruction, usize)>
    requires { Other o }
    ensures { Reads code at (opcode (rex_is x) o) result }
{
    match o / 8 {
        PUSH => Some((Instruction::Push(operand::low_number(x, o)), at)),
        POP => Some((Instruction::Pop(operand::low_number(x, o)), at)),
        MOV_IMM => constant_at(code, at, x, o),
        _ => None,
    }
}

// The opcodes of 40 to BF.
fn middle_opcode_at(code: &[u8], at: usize, x: Rex, o: u8) -> Option<(Instruction, usize)>
    requires { (0x40 ≤ o) × (o < 0xc0) }
    ensures { Reads code at (opcode (rex_is x) o) result }
{
    match o {
        0x81 => groups::group1_at(code, at, x),
        0x85 => x86_forms::alu_at(code, at, x, Alu::Test),
        0x88 => store_register_byte_at(code, at, x),
        0x89 => x86_forms::mov_at(code, at, x),
        0x8b => load_word_at(code, at, x),
        _ => in_opcode_at(code, at, x, o),
    }
}

// C3, and E8 and E9: no REX stands ahead of them.
fn ret_at(code: &[u8], at: usize, x: Rex) -> Option<(Instruction, usize)>
    ensures { Reads code at (opcode (rex_is x) 0xc3) result }
{
    if x.there {
        return None;
    }
    Some((Instruction::Ret, at))
}

fn bare_jump_at(code: &[u8], at: usize, x: Rex, j: Jump) -> Option<(Instruction, usize)>
    ensures { Reads code at (pick x.there (λ l. bad) (number 4 (λ v. got (jump (jump_of j) v)))) result }
{
    if x.there {
        return None;
    }
    x86_forms::relative_at(code, at, j)
}

// The opcodes of C0 on.
fn high_opcode_at(code: &[u8], at: usize, x: Rex, o: u8) -> Option<(Instruction, usize)>
    requires { 0xc0 ≤ o }
    ensures { Reads code at (opcode (rex_is x) o) result }
{
    match o {
        0xc1 => groups::group2_imm_at(code, at, x),
        0xc3 => ret_at(code, at, x),
        0xc6 => groups::store_byte_at(code, at, x),
        0xc7 => groups::move_constant_at(code, at, x),
        0xd3 => groups::group2_cl_at(code, at, x),
        0xe8 => bare_jump_at(code, at, x, Jump::Call),
        0xe9 => bare_jump_at(code, at, x, Jump::Jmp),
        0xf7 => groups::group3_at(code, at, x),
        0xff => groups::group5_at(code, at, x),
        _ => None,
    }
}

fn opcode_at(code: &[u8], at: usize, x: Rex, o: u8) -> Option<(Instruction, usize)>
    ensures { Reads code at (opcode (rex_is x) o) result }
{
    if o < 0x40 {
        return low_opcode_at(code, at, x, o);
    }
    if o < 0xc0 {
        return middle_opcode_at(code, at, x, o);
    }
    high_opcode_at(code, at, x, o)
}

// Behind 66: 89 /r, C1 /0 ib, C7 /0 iw, without REX.W alone.
fn opcode16_at(code: &[u8], at: usize, x: Rex, o: u8) -> Option<(Instruction, usize)>
    ensures { Reads code at (opcode16 (rex_is x) o) result }
{
    match x.width {
        Width::W64 => None,
        Width::W32 => match o {
            0x89 => x86_forms::store_at(code, at, x, Size::S16),
            0xc1 => groups::rotate_at(code, at, x),
            0xc7 => groups::store_two_at(code, at, x),
            _ => None,
        },
    }
}

fn narrow_at(code: &[u8], at: usize) -> Option<(Instruction, usize)>
    ensures { Reads code at (X.with_rex opcode16) result }
{
    let (x, o, next) = operand::head_at(code, at)?;
    opcode16_at(code, next, x, o)
}

fn usual_at(code: &[u8], at: usize) -> Option<(Instruction, usize)>
    ensures { Reads code at (X.with_rex opcode) result }
{
    let (x, o, next) = operand::head_at(code, at)?;
    opcode_at(code, next, x, o)
}

fn read_at(code: &[u8], at: usize) -> Option<(Instruction, usize)>
    ensures { Reads code at X.decode result }
{
    let (b, next) = bytes::byte_at(code, at)?;
    if b == 0x66 {
        return narrow_at(code, next);
    }
    usual_at(code, at)
}

// The instruction that begins at `at`, and the place behind it: what the definition decodes there, and nothing else. What is known of the
// place is what lies behind it, so one behind the end is the end.
pub fn decode(code: &[u8], at: usize) -> Option<(Instruction, usize)>
    ensures { Reads code at X.decode result × Onward code at result }
{
    let (i, end) = read_at(code, at)?;
    Some((i, end.min(code.len())))
}
