// A page with its map: `translate`, and beside the page the text by which perf names its bytes. Here are the answers; `mapped` has the function.

#![tactic(auto)]

ghost use Rattle.std.specs.Prelude.{◌≡◌};
ghost use Rattle.jit_mapping.specs.Refusals.{number_of, slot_of};
ghost use Rattle.jit_mapping.specs.declared.Refusal.TheVariants.{Translation};

use jit::Refusal as Untranslated;

pub mod mapped;
pub mod measure;
pub mod write;

// The most bytes that a line of a map can have, as specs/Room.antt has it.
pub const LONGEST_LINE: usize = 30;

// Why there is no page and no map. The number of each is in specs/Refusals.antt.
#[derive(Clone, Copy)]
pub enum Refusal {
    // The program is not translated.
    Translation(Untranslated),
    // The page would go on past the largest 64-bit address.
    BaseTooHigh,
    // The map's text is longer than the text buffer.
    TextTooShort,
}

impl From<Untranslated> for Refusal {
    ghost from_gives = { λ untranslated refusal. refusal ≡ Translation untranslated };

    fn from(untranslated: Untranslated) -> Refusal {
        Refusal::Translation(untranslated)
    }
}

// How many bytes of code, entries in each jump table and bytes of text there are.
#[derive(Clone, Copy)]
pub struct Accepted {
    pub length: usize,
    pub jumps: usize,
    pub text: usize,
}

// The two stay functions: the contract of `ndakoleem_translate_mapped_1` says its numbers by the definitions of their names.
pub fn number_of(refusal: Refusal) -> u8
    ensures { result ≡ number_of refusal }
{
    match refusal {
        Refusal::Translation(untranslated) => refusals::number_of(untranslated),
        Refusal::BaseTooHigh => 15,
        Refusal::TextTooShort => 16,
    }
}

pub fn slot_of(refusal: Refusal) -> usize
    ensures { result ≡ slot_of refusal }
{
    match refusal {
        Refusal::Translation(untranslated) => refusals::slot_of(untranslated),
        Refusal::BaseTooHigh => 0,
        Refusal::TextTooShort => 0,
    }
}
