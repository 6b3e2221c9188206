// The instructions that the translator writes: the executable twin of crates/x86/specs/Instr.antt, which x86_reader answers and x86_text
// spells. A register is its machine number, an immediate or a displacement its two's complement.

#![tactic(auto)]

ghost use Rattle.std.specs.Prelude.{◌≡◌};
ghost use Rattle.x86_instructions.specs.Instructions.{word_of};

use base::{Size, Width};

#[derive(Clone, Copy, PartialEq, Eq, Debug)]
pub enum Alu {
    Add,
    Or,
    And,
    Sub,
    Xor,
    Cmp,
    Mov,
    Test,
}

#[derive(Clone, Copy, PartialEq, Eq, Debug)]
pub enum Shift {
    Shl,
    Shr,
    Sar,
}

#[derive(Clone, Copy, PartialEq, Eq, Debug)]
pub enum Unary {
    Neg,
    Mul,
    Div,
}

// The conditions of Jcc, as Intel's manual abbreviates them.
#[derive(Clone, Copy, PartialEq, Eq, Debug)]
pub enum Cond {
    Jb,
    Jae,
    Je,
    Jne,
    Jbe,
    Ja,
    Jl,
    Jge,
    Jle,
    Jg,
}

#[derive(Clone, Copy, PartialEq, Eq, Debug)]
pub enum Jump {
    Jmp,
    Call,
    Jcc(Cond),
}

#[derive(Clone, Copy)]
pub enum Instruction {
    Push(u8),
    Pop(u8),
    // source, destination
    Alu(Alu, Width, u8, u8),
    // destination, constant
    AluImm(Alu, Width, u8, u32),
    // destination, count
    ShiftImm(Shift, Width, u8, u8),
    ShiftCl(Shift, Width, u8),
    Unary(Unary, Width, u8),
    // destination, constant
    MovImm(Width, u8, u64),
    Rol16(u8, u8),
    Bswap(Width, u8),
    // base, destination, displacement
    Load(Size, u8, u8, u32),
    // source, base, displacement
    Store(Size, u8, u8, u32),
    // base, displacement, constant
    StoreImm(Size, u8, u32, u32),
    // the field, relative to the instruction's end
    Jump(Jump, u32),
    CallReg(u8),
    Ret,
}

// A word of an operation's width, as the definition says it. No `From<Width>` for `Size`: that would have to stand in crate base, which
// knows no word, and `Size::from(w)` would not say that a word is what is meant.
pub fn size_of(w: Width) -> Size
    ensures { result ≡ word_of w }
{
    match w {
        Width::W32 => Size::S32,
        Width::W64 => Size::S64,
    }
}
