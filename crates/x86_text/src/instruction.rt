// The text of an instruction. `end` is the place behind it in the page, from which a jump counts.
ghost use Rattle.text.specs.Lent.{Says};
ghost use Rattle.x86_text.specs.Intel.{by_count_text, arithmetic_text, operands_text, instruction_text};

use crate::mnemonic::put_mnemonic;
use base::{Size, Width};
use text::form::put_form;
use text::text::put_text;
use x86_instructions::{Instruction, size_of};
use x86_operands::put_with_constant;
use x86_registers::put_register;

fn put_by_count(out: &mut [u8], at: usize, z: Size, d: u8) -> usize
    ensures { Says out at result (by_count_text z d) }
{
    let next = put_register(out, at, z, d);
    put_text(out, next, b",cl")
}

fn put_arithmetic(out: &mut [u8], at: usize, w: Width, d: u8, imm: u32) -> usize
    ensures { Says out at result (arithmetic_text w d imm) }
{
    let z = size_of(w);
    put_with_constant(out, at, z, d, x86_operands::constant_of(z, imm))
}

fn put_operands(out: &mut [u8], at: usize, i: Instruction, end: usize) -> usize
    ensures { Says out at result (operands_text i end) }
{
    match i {
        Instruction::Push(r) | Instruction::Pop(r) | Instruction::CallReg(r) => {
            put_register(out, at, Size::S64, r)
        }
        Instruction::Alu(_, w, s, d) => x86_operands::put_pair(out, at, size_of(w), d, s),
        Instruction::AluImm(_, w, d, imm) => put_arithmetic(out, at, w, d, imm),
        Instruction::ShiftImm(_, w, d, n) => put_with_constant(
            out,
            at,
            size_of(w),
            d,
            u64::from(n),
        ),
        Instruction::ShiftCl(_, w, d) => put_by_count(out, at, size_of(w), d),
        Instruction::Unary(_, w, r) | Instruction::Bswap(w, r) => {
            put_register(out, at, size_of(w), r)
        }
        Instruction::MovImm(w, d, v) => put_with_constant(out, at, size_of(w), d, v),
        Instruction::Rol16(d, n) => put_with_constant(out, at, Size::S16, d, u64::from(n)),
        Instruction::Load(z, b, d, v) => x86_operands::put_load(out, at, z, b, d, v),
        Instruction::Store(z, s, b, v) => x86_operands::put_store(out, at, z, s, b, v),
        Instruction::StoreImm(z, b, v, imm) => x86_operands::put_store_constant(
            out, at, z, b, v, imm,
        ),
        Instruction::Jump(_, field) => put_form(
            out,
            at,
            b"0x$",
            &[x86_operands::destination_of(end, field)],
        ),
        Instruction::Ret => at,
    }
}

pub fn put_instruction(out: &mut [u8], at: usize, i: Instruction, end: usize) -> usize
    ensures { Says out at result (instruction_text i end) }
{
    let next = put_mnemonic(out, at, i);
    put_operands(out, next, i, end)
}
