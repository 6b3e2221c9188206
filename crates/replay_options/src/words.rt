// Which word of a replay a word is.
ghost use Rattle.std.specs.Prelude.{◌≡◌};
ghost use Rattle.replay_options.specs.Words.{shared};
ghost use Rattle.replay_options.specs.Words.{word_of as Words·word_of};
ghost use Rattle.text.specs.Lent.{given};

use listing_arguments::is;

#[derive(Clone, Copy)]
pub enum Word {
    // The file for the kept packets is the next word.
    WriteNext,
    // The name of a file, or `-`, which is standard input.
    Name,
    // An option of other programs: a replay has no flags, and one mode.
    Foreign,
    // Any other, which is read as other programs read it.
    Common,
}

fn sorted(word: listing_arguments::Word) -> Word
    ensures { result ≡ shared word }
{
    match word {
        listing_arguments::Word::Mbuff => Word::Foreign,
        listing_arguments::Word::UpdateDataPtr => Word::Foreign,
        listing_arguments::Word::Standard => Word::Foreign,
        listing_arguments::Word::Compact => Word::Foreign,
        listing_arguments::Word::PageSize => Word::Common,
        listing_arguments::Word::HelperNext => Word::Common,
        listing_arguments::Word::Help => Word::Common,
        listing_arguments::Word::File => Word::Name,
        listing_arguments::Word::Unknown => Word::Common,
    }
}

// Word by word: of a `match` on the bytes the check leaves the last arm open (`returns-in_default`), by each of the eleven ways that lead to it.
pub fn word_of(word: &[u8]) -> Word
    ensures { result ≡ Words·word_of (given word) }
{
    if is(word, b"--write") {
        return Word::WriteNext;
    }
    if is(word, b"-") {
        return Word::Name;
    }
    sorted(listing_arguments::word_of(word))
}
