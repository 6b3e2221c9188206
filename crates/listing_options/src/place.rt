// The base address of the page, which is the first argument of the programs that write maps: where the page lies when it is run.
ghost use Rattle.std.specs.Prelude.{◌≡◌};
ghost use Rattle.text.specs.Lent.{given};
ghost use Rattle.listing_options.specs.declared.place.Base.TheVariants.{Unclear};
ghost use Rattle.listing_options.specs.Place.{base_in, is_help, asked_by, Asked};

use crate::options::{Program, SENTENCE, WORD, complain};
use listing_arguments::{Word, base_of, word_of};
use text::form::put_form;

#[derive(Clone, Copy)]
pub enum Base {
    At(u64),
    // The help is asked for instead.
    Help,
    // There is none, which standard error says.
    Unclear,
}

fn unclear(rt: &HostRuntime, program: Program, what: &[u8], word: &[u8]) -> Base
    ensures { result ≡ Unclear }
{
    let mut line = [0u8; SENTENCE];
    complain(rt, &mut line, program, what, word);
    Base::Unclear
}

fn too_long(rt: &HostRuntime, program: Program, most: usize) -> Base
    ensures { result ≡ Unclear }
{
    let mut word = [0u8; WORD];
    let end = put_form(&mut word, 0, b"# bytes", &[most as u64]);
    unclear(
        rt,
        program,
        b"the base address is longer than ",
        &word[..end],
    )
}

fn base_in(rt: &HostRuntime, program: Program, word: &[u8]) -> Base
    ensures { result ≡ base_in (given word) }
{
    match base_of(word) {
        Some(base) => Base::At(base),
        None => unclear(
            rt,
            program,
            b"the base address is not a hexadecimal number below 2^64: ",
            word,
        ),
    }
}

fn is_help(word: Word) -> bool
    ensures { result ≡ is_help word }
{
    word == Word::Help
}

fn asked_by(rt: &HostRuntime, program: Program, word: &[u8]) -> Base
    ensures { result ≡ asked_by (given word) }
{
    if is_help(word_of(word)) {
        return Base::Help;
    }
    base_in(rt, program, word)
}

// What the first argument asks for, which is left at the start of `word`.
pub fn read_base(rt: &HostRuntime, program: Program, word: &mut [u8]) -> Base
    ensures { Asked word.new result }
{
    if streams::word_count(rt) < 2 {
        return unclear(rt, program, b"the base address is missing", b"");
    }
    let Some(n) = streams::read_word(rt, 1, word) else {
        return too_long(rt, program, word.len());
    };
    asked_by(rt, program, &word[..n])
}
