// The words that a listing, a map and a translation are asked for with, read: which option a word is and what it adds to the mode, a number,
// a helper, a base address. What a program does with them stands in listing_options and program_translate.

#![tactic(auto)]

ghost use Rattle.std.specs.Prelude.{◌≡◌, ◌≤◌, ◌<◌, length};
ghost use Rattle.listing_arguments.specs.Arguments.{equal, word_of, mode_with, digit_of, number_of, base_of, address_of, index_of, helper_of};
ghost use Rattle.listing_arguments.specs.Arguments.{digits as Arguments·digits};
ghost use Rattle.listing_arguments.specs.Arguments.{grown as Arguments·grown};
ghost use Rattle.listing_arguments.specs.Arguments.{prefixed as Arguments·prefixed};

use jit::Mode;

#[derive(Clone, Copy, PartialEq, Eq)]
pub enum Word {
    Mbuff,
    UpdateDataPtr,
    Standard,
    Compact,
    // The page's size is the next word.
    PageSize,
    // A helper is the next word.
    HelperNext,
    Help,
    File,
    Unknown,
}

// Where a helper is that no address is said of: a page has as many bytes as with one of a Linux program's own functions.
pub const SOME_ADDRESS: u64 = 0x7f0000000000;

// Whether a word is the name. It stays beside `==` for its clause: `equal` is what `word_of` is defined over, here and in replay_options.
pub fn is(word: &[u8], name: &[u8]) -> bool
    ensures { result ≡ equal word.now name.now }
{
    word == name
}

pub fn word_of(word: &[u8]) -> Word
    ensures { result ≡ word_of word.now }
{
    if is(word, b"--mbuff") {
        return Word::Mbuff;
    }
    if is(word, b"--update-data-ptr") {
        return Word::UpdateDataPtr;
    }
    if is(word, b"--standard") {
        return Word::Standard;
    }
    if is(word, b"--compact") {
        return Word::Compact;
    }
    if is(word, b"--page") {
        return Word::PageSize;
    }
    if is(word, b"--helper") {
        return Word::HelperNext;
    }
    if is(word, b"--help") {
        return Word::Help;
    }
    if word.len() == 0 {
        return Word::Unknown;
    }
    if word[0] == b'-' {
        return Word::Unknown;
    }
    Word::File
}

// The mode with what a word asks for: most ask for nothing of it.
pub fn mode_with(mode: Mode, word: Word) -> Mode
    ensures { result ≡ mode_with mode word }
{
    match word {
        Word::Standard => Mode {
            standard: true,
            ..mode
        },
        Word::Compact => Mode {
            compact: true,
            ..mode
        },
        _ => mode,
    }
}

fn digit_of(c: u8) -> u64
    ensures { (result ≡ digit_of c) × (result ≤ 16) }
{
    match c {
        b'0'..=b'9' => u64::from(c - b'0'),
        b'A'..=b'F' => u64::from(c - b'A') + 10,
        b'a'..=b'f' => u64::from(c - b'a') + 10,
        _ => 16,
    }
}

fn grown(base: u64, n: u64, digit: u64) -> Option<u64>
    requires { (0 < base) × (digit ≤ 16) }
    ensures { result ≡ Arguments·grown base n digit }
{
    if base <= digit {
        return None;
    }
    let Some(shifted) = n.checked_mul(base) else {
        return None;
    };
    shifted.checked_add(digit)
}

fn digits(base: u64, word: &[u8]) -> Option<u64>
    requires { 0 < base }
    ensures { result ≡ Arguments·digits base word.now }
{
    if word.is_empty() {
        return None;
    }
    let mut n = 0;
    for c in word {
        n = grown(base, n, digit_of(*c))?;
    }
    Some(n)
}

// In hexadecimal behind 0x; else in the base that is said.
fn prefixed(base: u64, word: &[u8]) -> Option<u64>
    requires { 0 < base }
    ensures { result ≡ Arguments·prefixed base word.now }
{
    match word {
        [b'0', b'x', rest @ ..] => digits(16, rest),
        _ => digits(base, word),
    }
}

// A number in decimal or, behind 0x, in hexadecimal.
pub fn number_of(word: &[u8]) -> Option<u64>
    ensures { result ≡ number_of word.now }
{
    prefixed(10, word)
}

// A base address: a number in hexadecimal, with or without 0x in front.
pub fn base_of(word: &[u8]) -> Option<u64>
    ensures { result ≡ base_of word.now }
{
    prefixed(16, word)
}

fn address_of(word: &[u8], at: usize) -> Option<u64>
    ensures { result ≡ address_of word.now at }
{
    if word.len() <= at {
        return Some(SOME_ADDRESS);
    }
    number_of(&word[at + 1..])
}

// The place of the first byte `b`; where there is none, how many bytes there are.
fn find(word: &[u8], b: u8) -> usize
    ensures { (result ≡ index_of b word.now) × (result ≤ length word.now) }
{
    for (i, c) in word.iter().enumerate() {
        if *c == b {
            return i;
        }
    }
    word.len()
}

// A helper's id and address, as ID or ID=ADDRESS.
pub fn helper_of(word: &[u8]) -> Option<(u32, u64)>
    ensures { result ≡ helper_of word.now }
{
    let at = find(word, b'=');
    let id = number_of(&word[..at])?;
    let address = address_of(word, at)?;
    Some((u32::try_from(id).ok()?, address))
}
