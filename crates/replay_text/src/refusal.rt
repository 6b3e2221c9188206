// A refusal of a replay: its number, its slot and its sentence.
ghost use Rattle.std.specs.Prelude.{◌≡◌};
ghost use Rattle.replay.specs.Refusals.{number_of, slot_of};
ghost use Rattle.refusals_text.specs.Lent.{Sentence};

use replay::Refusal;

pub fn number_of(refusal: Refusal) -> u8
    ensures { result ≡ number_of refusal }
{
    match refusal {
        Refusal::Translation(untranslated) => refusals::number_of(untranslated),
        Refusal::NotPcap => 17,
        Refusal::BadRecord => 18,
        Refusal::NotModelled(_) => 19,
    }
}

pub fn slot_of(refusal: Refusal) -> usize
    ensures { result ≡ slot_of refusal }
{
    match refusal {
        Refusal::Translation(untranslated) => refusals::slot_of(untranslated),
        Refusal::NotPcap => 0,
        Refusal::BadRecord => 0,
        Refusal::NotModelled(s) => s.number,
    }
}

// The sentence of a refusal of `prog`, at the start of `out`, and its length; in 200 bytes it stands whole.
pub fn sentence(prog: &[u8], refusal: Refusal, out: &mut [u8]) -> usize
    ensures { Sentence prog (number_of refusal) (slot_of refusal) out result }
{
    let number = number_of(refusal);
    refusals_text::sentence(prog, number, slot_of(refusal), out)
}
