// The number and the slot of a refusal, as the table of docs/REFUSALS.md has them, for whoever has to write them down.

#![tactic(auto)]

ghost use Rattle.std.specs.Prelude.{◌≡◌};
ghost use Rattle.jit.specs.Refusals.{number_of, slot_of};

use jit::Refusal;

pub fn number_of(refusal: Refusal) -> u8
    ensures { result ≡ number_of refusal }
{
    match refusal {
        Refusal::PageTooShort => 1,
        Refusal::PageTooLong => 2,
        Refusal::ProgramTooLong => 3,
        Refusal::TableTooShort => 4,
        Refusal::BadHelpers => 5,
        Refusal::Torn(_) => 6,
        Refusal::BadRegister(_) => 7,
        Refusal::UnknownOpcode(_) => 8,
        Refusal::Unimplemented(_) => 9,
        Refusal::BadSwap(_) => 10,
        Refusal::UnknownHelper(_) => 11,
        Refusal::BadCall(_) => 12,
        Refusal::NoRoom(_) => 13,
        Refusal::BadTarget(_) => 14,
    }
}

pub fn slot_of(refusal: Refusal) -> usize
    ensures { result ≡ slot_of refusal }
{
    match refusal {
        Refusal::PageTooShort => 0,
        Refusal::PageTooLong => 0,
        Refusal::ProgramTooLong => 0,
        Refusal::TableTooShort => 0,
        Refusal::BadHelpers => 0,
        Refusal::Torn(s) => s.number,
        Refusal::BadRegister(s) => s.number,
        Refusal::UnknownOpcode(s) => s.number,
        Refusal::Unimplemented(s) => s.number,
        Refusal::BadSwap(s) => s.number,
        Refusal::UnknownHelper(s) => s.number,
        Refusal::BadCall(s) => s.number,
        Refusal::NoRoom(s) => s.number,
        Refusal::BadTarget(s) => s.number,
    }
}
