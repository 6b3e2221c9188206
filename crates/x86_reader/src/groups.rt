// The opcodes whose ModRM holds more of the opcode in reg, the manual's /0 to /7 (table A-6).
ghost use Rattle.std.specs.Prelude.{◌≡◌};
ghost use Rattle.base.specs.declared.Size.TheVariants.{S8, S16};
ghost use Rattle.x86.specs.Decode.{opcode};
ghost use Rattle.x86_encoding.specs.Operand.{rex_is};
ghost use Rattle.x86_instructions.specs.Lent.{Reads};
ghost use Rattle.x86_forms.specs.Lent.{Stores, Rotates};
ghost use Rattle.x86_reader.specs.Extensions.{group1_of, group2_of, group3_of};

use base::Size;
use x86_encoding::operand::{Modrm, Operand, Rex};
use x86_encoding::{bytes, operand};
use x86_instructions::{Alu, Instruction, Shift, Unary, size_of};

// What reg says in the groups 1, 2 and 3.
fn group1_of(reg: u8) -> Option<Alu>
    ensures { result ≡ group1_of reg }
{
    match reg % 8 {
        0 => Some(Alu::Add),
        1 => Some(Alu::Or),
        4 => Some(Alu::And),
        5 => Some(Alu::Sub),
        6 => Some(Alu::Xor),
        7 => Some(Alu::Cmp),
        _ => None,
    }
}

fn group2_of(reg: u8) -> Option<Shift>
    ensures { result ≡ group2_of reg }
{
    match reg % 8 {
        4 => Some(Shift::Shl),
        5 => Some(Shift::Shr),
        7 => Some(Shift::Sar),
        _ => None,
    }
}

fn group3_of(reg: u8) -> Option<Unary>
    ensures { result ≡ group3_of reg }
{
    match reg % 8 {
        3 => Some(Unary::Neg),
        4 => Some(Unary::Mul),
        6 => Some(Unary::Div),
        _ => None,
    }
}

// 81 id
pub fn group1_at(code: &[u8], at: usize, x: Rex) -> Option<(Instruction, usize)>
    ensures { Reads code at (opcode (rex_is x) 0x81) result }
{
    let (reg, d, next) = x86_forms::registers_at(code, at, x)?;
    x86_forms::alu_imm_at(code, next, x.width, d, group1_of(reg)?)
}

// C1 ib
pub fn group2_imm_at(code: &[u8], at: usize, x: Rex) -> Option<(Instruction, usize)>
    ensures { Reads code at (opcode (rex_is x) 0xc1) result }
{
    let (reg, d, next) = x86_forms::registers_at(code, at, x)?;
    x86_forms::shift_imm_at(code, next, x.width, d, group2_of(reg)?)
}

// D3
pub fn group2_cl_at(code: &[u8], at: usize, x: Rex) -> Option<(Instruction, usize)>
    ensures { Reads code at (opcode (rex_is x) 0xd3) result }
{
    let (reg, d, next) = x86_forms::registers_at(code, at, x)?;
    Some((Instruction::ShiftCl(group2_of(reg)?, x.width, d), next))
}

// F7: TEST has a constant
pub fn group3_at(code: &[u8], at: usize, x: Rex) -> Option<(Instruction, usize)>
    ensures { Reads code at (opcode (rex_is x) 0xf7) result }
{
    let (reg, d, next) = x86_forms::registers_at(code, at, x)?;
    if reg % 8 == 0 {
        return x86_forms::alu_imm_at(code, next, x.width, d, Alu::Test);
    }
    Some((Instruction::Unary(group3_of(reg)?, x.width, d), next))
}

// FF /2, CALL through a register
pub fn group5_at(code: &[u8], at: usize, x: Rex) -> Option<(Instruction, usize)>
    ensures { Reads code at (opcode (rex_is x) 0xff) result }
{
    let (reg, d, next) = x86_forms::registers_at(code, at, x)?;
    if reg % 8 == 2 {
        return Some((Instruction::CallReg(d), next));
    }
    None
}

// C6 /0 ib, and below 66 C7 /0 iw. They stay two: `byte_at` and `two_at` answer different types, and one function that takes the reader of
// the constant as a closure would need a contract on it that is longer than both.
pub fn store_byte_at(code: &[u8], at: usize, x: Rex) -> Option<(Instruction, usize)>
    ensures { Stores code at x 1 S8 result }
{
    let (reg, b, v, next) = x86_forms::memory_at(code, at, x)?;
    if reg % 8 == 0 {
        let (imm, end) = bytes::byte_at(code, next)?;
        return Some((Instruction::StoreImm(Size::S8, b, v, u32::from(imm)), end));
    }
    None
}

// 66 C7 /0 iw
pub fn store_two_at(code: &[u8], at: usize, x: Rex) -> Option<(Instruction, usize)>
    ensures { Stores code at x 2 S16 result }
{
    let (reg, b, v, next) = x86_forms::memory_at(code, at, x)?;
    if reg % 8 == 0 {
        let (imm, end) = bytes::two_at(code, next)?;
        return Some((Instruction::StoreImm(Size::S16, b, v, imm), end));
    }
    None
}

// C7 /0 id, to a register or to memory
pub fn move_constant_at(code: &[u8], at: usize, x: Rex) -> Option<(Instruction, usize)>
    ensures { Reads code at (opcode (rex_is x) 0xc7) result }
{
    let (Modrm { reg, operand }, next) = operand::modrm_at(code, at, x)?;
    if reg % 8 != 0 {
        return None;
    }
    match operand {
        Operand::Register(d) => x86_forms::alu_imm_at(code, next, x.width, d, Alu::Mov),
        Operand::Memory(b, v) => x86_forms::store_imm_at(code, next, size_of(x.width), b, v),
    }
}

// 66 C1 /0 ib, ROL
pub fn rotate_at(code: &[u8], at: usize, x: Rex) -> Option<(Instruction, usize)>
    ensures { Rotates code at x result }
{
    let (reg, d, next) = x86_forms::registers_at(code, at, x)?;
    if reg % 8 == 0 {
        let (count, end) = bytes::byte_at(code, next)?;
        return Some((Instruction::Rol16(d, count), end));
    }
    None
}
