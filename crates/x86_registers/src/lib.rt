// The names of the registers, by machine number and size, as objdump -M intel spells them. specs/Registers.antt says each.

#![tactic(auto)]

ghost use Rattle.std.specs.Prelude.{◌≡◌};
ghost use Rattle.text.specs.Lent.{Says};
ghost use Rattle.x86_registers.specs.Registers.{stem_text, byte_text, suffix_text, low_text, register_text};

use base::Size;
use text::form::put_form;
use text::text::{put_byte, put_text};

#[tactic(auto, unfolding(crate::specs::Registers::stem_text))]
fn stem(r: u8) -> &'static [u8]
    ensures { result.now ≡ stem_text r }
{
    match r {
        0 => b"ax",
        1 => b"cx",
        2 => b"dx",
        3 => b"bx",
        4 => b"sp",
        5 => b"bp",
        6 => b"si",
        _ => b"di",
    }
}

// A register's lowest byte, as it is named behind a REX.
#[tactic(auto, unfolding(crate::specs::Registers::byte_text))]
fn low_byte(r: u8) -> &'static [u8]
    ensures { result.now ≡ byte_text r }
{
    match r {
        0 => b"al",
        1 => b"cl",
        2 => b"dl",
        3 => b"bl",
        4 => b"spl",
        5 => b"bpl",
        6 => b"sil",
        _ => b"dil",
    }
}

fn suffix(z: Size) -> &'static [u8]
    ensures { result.now ≡ suffix_text z }
{
    match z {
        Size::S8 => b"b",
        Size::S16 => b"w",
        Size::S32 => b"d",
        Size::S64 => b"",
    }
}

fn put_low(out: &mut [u8], at: usize, z: Size, r: u8) -> usize
    ensures { Says out at result (low_text z r) }
{
    match z {
        Size::S8 => put_text(out, at, low_byte(r)),
        Size::S16 => put_text(out, at, stem(r)),
        Size::S32 => {
            let next = put_byte(out, at, b'e');
            put_text(out, next, stem(r))
        }
        Size::S64 => {
            let next = put_byte(out, at, b'r');
            put_text(out, next, stem(r))
        }
    }
}

#[tactic(auto, unfolding(crate::specs::Registers::register_text))]
pub fn put_register(out: &mut [u8], at: usize, z: Size, r: u8) -> usize
    ensures { Says out at result (register_text z r) }
{
    if r < 8 {
        return put_low(out, at, z, r);
    }
    let next = put_form(out, at, b"r#", &[u64::from(r)]);
    put_text(out, next, suffix(z))
}
