// What an instruction works on, as text in Intel syntax: registers, memory, constants, a place to go to. specs/Operands.antt says each
// text. Which of them an instruction has, `x86_text` says.

#![tactic(auto)]

ghost use Rattle.std.specs.Prelude.{◌≡◌};
ghost use Rattle.text.specs.Lent.{Says};
ghost use Rattle.x86_operands.specs.Operands.{constant_of, destination_of, size_text, no_displacement_text, displacement_text, memory_text};
ghost use Rattle.x86_operands.specs.Operands.{pair_text, with_constant_text, loaded_of, load_text, store_text, store_constant_text};

use base::Size;
use text::form::put_form;
use text::number::extended;
use text::text::{put_byte, put_text};
use x86_registers::put_register;

// A constant as an operation of this size takes it: at 64 bits it is extended by its sign.
pub fn constant_of(z: Size, imm: u32) -> u64
    ensures { result ≡ constant_of z imm }
{
    match z {
        Size::S8 | Size::S16 | Size::S32 => u64::from(imm),
        Size::S64 => extended(imm),
    }
}

// Where a jump goes whose last byte stands before `end`.
#[tactic(auto, unfolding(crate::specs::Operands::destination_of))]
pub fn destination_of(end: usize, field: u32) -> u64
    ensures { result ≡ destination_of end field }
{
    ((end % 0x1_0000_0000) as u64 + u64::from(field)) % 0x1_0000_0000
}

fn size_name(z: Size) -> &'static [u8]
    ensures { result.now ≡ size_text z }
{
    match z {
        Size::S8 => b"BYTE PTR [",
        Size::S16 => b"WORD PTR [",
        Size::S32 => b"DWORD PTR [",
        Size::S64 => b"QWORD PTR [",
    }
}

// RBP and R13 have no form without a displacement.
#[tactic(auto, unfolding(crate::specs::Operands::no_displacement_text))]
fn put_no_displacement(out: &mut [u8], at: usize, base: u8) -> usize
    ensures { Says out at result (no_displacement_text base) }
{
    if base % 8 == 5 {
        return put_text(out, at, b"+0x0");
    }
    at
}

#[tactic(auto, unfolding(crate::specs::Operands::displacement_text))]
fn put_displacement(out: &mut [u8], at: usize, base: u8, disp: u32) -> usize
    ensures { Says out at result (displacement_text base disp) }
{
    if disp == 0 {
        return put_no_displacement(out, at, base);
    }
    if disp < 0x8000_0000 {
        return put_form(out, at, b"+0x$", &[u64::from(disp)]);
    }
    put_form(out, at, b"-0x$", &[0x1_0000_0000 - u64::from(disp)])
}

fn put_memory(out: &mut [u8], at: usize, z: Size, base: u8, disp: u32) -> usize
    ensures { Says out at result (memory_text z base disp) }
{
    let next = put_text(out, at, size_name(z));
    let next = put_register(out, next, Size::S64, base);
    let next = put_displacement(out, next, base, disp);
    put_byte(out, next, b']')
}

pub fn put_pair(out: &mut [u8], at: usize, z: Size, d: u8, s: u8) -> usize
    ensures { Says out at result (pair_text z d s) }
{
    let next = put_register(out, at, z, d);
    let next = put_byte(out, next, b',');
    put_register(out, next, z, s)
}

pub fn put_with_constant(out: &mut [u8], at: usize, z: Size, d: u8, v: u64) -> usize
    ensures { Says out at result (with_constant_text z d v) }
{
    let next = put_register(out, at, z, d);
    put_form(out, next, b",0x$", &[v])
}

// Loads of one and two bytes fill 32 bits of the register.
fn loaded_of(z: Size) -> Size
    ensures { result ≡ loaded_of z }
{
    match z {
        Size::S8 | Size::S16 | Size::S32 => Size::S32,
        Size::S64 => Size::S64,
    }
}

pub fn put_load(out: &mut [u8], at: usize, z: Size, base: u8, d: u8, disp: u32) -> usize
    ensures { Says out at result (load_text z base d disp) }
{
    let next = put_register(out, at, loaded_of(z), d);
    let next = put_byte(out, next, b',');
    put_memory(out, next, z, base, disp)
}

pub fn put_store(out: &mut [u8], at: usize, z: Size, s: u8, base: u8, disp: u32) -> usize
    ensures { Says out at result (store_text z s base disp) }
{
    let next = put_memory(out, at, z, base, disp);
    let next = put_byte(out, next, b',');
    put_register(out, next, z, s)
}

pub fn put_store_constant(
    out: &mut [u8],
    at: usize,
    z: Size,
    base: u8,
    disp: u32,
    imm: u32,
) -> usize
    ensures { Says out at result (store_constant_text z base disp imm) }
{
    let next = put_memory(out, at, z, base, disp);
    put_form(out, next, b",0x$", &[constant_of(z, imm)])
}
