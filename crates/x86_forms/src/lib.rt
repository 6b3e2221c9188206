// What follows an opcode: the forms of the definition, each read to its end. `at` is the place behind the opcode, or behind ModRM
// where a form goes on with a constant. Which form an opcode has, x86_reader says.

#![tactic(auto)]

ghost use Rattle.std.specs.Prelude.{◌≡◌, ◌∷◌, ◌/◌};
ghost use Rattle.base.specs.Widths.{bits};
ghost use Rattle.x86.specs.Instr.{op, alu, alu_imm, shift_imm, load, store, store_imm, mov_imm, jump};
ghost use Rattle.x86.specs.Decode.{number, got, opcode};
ghost use Rattle.x86_encoding.specs.Operand.{rex_is};
ghost use Rattle.x86_instructions.specs.Instructions.{alu_of, shift_of, jump_of};
ghost use Rattle.x86_instructions.specs.Lent.{Reads};
ghost use Rattle.x86_forms.specs.Forms.{condition_of};
ghost use Rattle.x86_forms.specs.Lent.{OnRegisters, OnMemory, Registers, Memory};

use base::{Size, Width};
use x86_encoding::operand::{Modrm, Operand, Rex};
use x86_encoding::{bytes, operand};
use x86_instructions::{Alu, Cond, Instruction, Jump, Shift, size_of};

// reg and a register, and the place behind them
pub fn registers_at(code: &[u8], at: usize, x: Rex) -> Option<(u8, u8, usize)>
    ensures { Registers code at x result }
{
    let (Modrm { reg, operand }, next) = operand::modrm_at(code, at, x)?;
    match operand {
        Operand::Register(d) => Some((reg, d, next)),
        Operand::Memory(_, _) => None,
    }
}

// reg, the base register and the displacement of what lies in memory, and the place behind them
pub fn memory_at(code: &[u8], at: usize, x: Rex) -> Option<(u8, u8, u32, usize)>
    ensures { Memory code at x result }
{
    let (Modrm { reg, operand }, next) = operand::modrm_at(code, at, x)?;
    match operand {
        Operand::Register(_) => None,
        Operand::Memory(base, disp) => Some((reg, base, disp, next)),
    }
}

// 01, 09, 21, 29, 31, 39, 85
pub fn alu_at(code: &[u8], at: usize, x: Rex, o: Alu) -> Option<(Instruction, usize)>
    ensures { OnRegisters code at x (λ s d. op (alu (alu_of o) x.width s d)) result }
{
    let (src, dst, next) = registers_at(code, at, x)?;
    Some((Instruction::Alu(o, x.width, src, dst), next))
}

// MOVZX 0F B6 and 0F B7, MOV 8B
pub fn load_at(code: &[u8], at: usize, x: Rex, z: Size) -> Option<(Instruction, usize)>
    ensures { OnMemory code at x (λ d b v. op (load z b d v)) result }
{
    let (dst, base, disp, next) = memory_at(code, at, x)?;
    Some((Instruction::Load(z, base, dst, disp), next))
}

// 88 and 66 89
pub fn store_at(code: &[u8], at: usize, x: Rex, z: Size) -> Option<(Instruction, usize)>
    ensures { OnMemory code at x (λ s b v. op (store z s b v)) result }
{
    let (src, base, disp, next) = memory_at(code, at, x)?;
    Some((Instruction::Store(z, src, base, disp), next))
}

// 89, to a register or to memory
pub fn mov_at(code: &[u8], at: usize, x: Rex) -> Option<(Instruction, usize)>
    ensures { Reads code at (opcode (rex_is x) 0x89) result }
{
    let (Modrm { reg, operand }, next) = operand::modrm_at(code, at, x)?;
    match operand {
        Operand::Register(d) => Some((Instruction::Alu(Alu::Mov, x.width, reg, d), next)),
        Operand::Memory(base, disp) => Some((
            Instruction::Store(size_of(x.width), reg, base, disp),
            next,
        )),
    }
}

// constants: of arithmetic, of a shift, to memory, of a jump
pub fn alu_imm_at(code: &[u8], at: usize, w: Width, d: u8, o: Alu) -> Option<(Instruction, usize)>
    ensures { Reads code at (number 4 (λ i. got (op (alu_imm (alu_of o) w d i)))) result }
{
    let (imm, end) = bytes::four_at(code, at)?;
    Some((Instruction::AluImm(o, w, d, imm), end))
}

pub fn shift_imm_at(
    code: &[u8],
    at: usize,
    w: Width,
    d: u8,
    o: Shift,
) -> Option<(Instruction, usize)>
    ensures { Reads code at (number 1 (λ i. got (op (shift_imm (shift_of o) w d i)))) result }
{
    let (count, end) = bytes::byte_at(code, at)?;
    Some((Instruction::ShiftImm(o, w, d, count), end))
}

pub fn store_imm_at(code: &[u8], at: usize, z: Size, b: u8, v: u32) -> Option<(Instruction, usize)>
    ensures { Reads code at (number 4 (λ i. got (op (store_imm z b v i)))) result }
{
    let (imm, end) = bytes::four_at(code, at)?;
    Some((Instruction::StoreImm(z, b, v, imm), end))
}

pub fn relative_at(code: &[u8], at: usize, j: Jump) -> Option<(Instruction, usize)>
    ensures { Reads code at (number 4 (λ v. got (jump (jump_of j) v))) result }
{
    let (field, end) = bytes::four_at(code, at)?;
    Some((Instruction::Jump(j, field), end))
}

// The conditions by their numbers.
fn condition_of(number: u8) -> Option<Cond>
    ensures { result ≡ condition_of number }
{
    match number {
        0x2 => Some(Cond::Jb),
        0x3 => Some(Cond::Jae),
        0x4 => Some(Cond::Je),
        0x5 => Some(Cond::Jne),
        0x6 => Some(Cond::Jbe),
        0x7 => Some(Cond::Ja),
        0xc => Some(Cond::Jl),
        0xd => Some(Cond::Jge),
        0xe => Some(Cond::Jle),
        0xf => Some(Cond::Jg),
        _ => None,
    }
}

// 0F 80+cc cd
pub fn conditional_at(code: &[u8], at: usize, x: Rex, o: u8) -> Option<(Instruction, usize)>
    requires { o / 16 ≡ 0x8 }
    ensures { Reads code at (λ l. opcode (rex_is x) 0x0f (o ∷ l)) result }
{
    if x.there {
        return None;
    }
    relative_at(code, at, Jump::Jcc(condition_of(o % 16)?))
}

// B8+r: all of a constant of the width
pub fn mov_imm_at(code: &[u8], at: usize, w: Width, d: u8) -> Option<(Instruction, usize)>
    ensures { Reads code at (number (bits w / 8) (λ i. got (op (mov_imm w d i)))) result }
{
    let (imm, end) = bytes::word_at(code, at, w)?;
    Some((Instruction::MovImm(w, d, imm), end))
}
