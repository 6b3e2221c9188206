// What the arguments of a replay ask for. What is wrong with them gets a sentence on standard error.
ghost use Rattle.std.specs.Prelude.{◌≡◌, ◌+◌, ◌≤◌};
ghost use Rattle.replay_options.specs.Asked.{Holds};

use crate::words::{Word, word_of};
use listing_arguments::is;
use listing_options::options;
use listing_options::options::{Next, Options, Program, unasked};

// Where the kept packets are written.
#[derive(Clone, Copy)]
pub enum Write {
    Nowhere,
    // The word before this one was --write: this one names the file.
    Next,
    // The file whose name is this argument.
    To(usize),
}

#[derive(Clone, Copy)]
pub struct Asked {
    // The page's size, the helpers, and whether the help is asked for or a word is wrong.
    pub options: Options,
    // Which arguments are the names of the filter and of the capture. 0, no name's place, until they are there: `named` refuses what lacks one, so
    // an Option would be taken apart again where nothing is missing.
    pub filter: usize,
    pub capture: usize,
    pub write: Write,
}

fn with_options(asked: Asked, options: Options) -> Asked
    ensures { result.options ≡ options }
{
    Asked { options, ..asked }
}

fn wronged(rt: &HostRuntime, asked: Asked, what: &[u8], word: &[u8]) -> Asked
    ensures { (result.options.page ≡ asked.options.page) × (result.options.helpers ≡ asked.options.helpers) }
{
    let before = asked.options;
    with_options(asked, options::wronged(rt, before, what, word))
}

// The first name is the filter's, the second the capture's.
fn with_name(rt: &HostRuntime, asked: Asked, index: usize, word: &[u8]) -> Asked
    ensures { (result.options.page ≡ asked.options.page) × (result.options.helpers ≡ asked.options.helpers) }
{
    if asked.filter == 0 {
        if is(word, b"-") {
            return wronged(
                rt,
                asked,
                b"the filter is a file: only the capture can be ",
                word,
            );
        }
        return Asked {
            filter: index,
            ..asked
        };
    }
    if asked.capture == 0 {
        return Asked {
            capture: index,
            ..asked
        };
    }
    wronged(rt, asked, b"a third name: ", word)
}

fn with_write(asked: Asked, index: usize) -> Asked
    ensures { (result.options.page ≡ asked.options.page) × (result.options.helpers ≡ asked.options.helpers) }
{
    Asked {
        write: Write::To(index),
        ..asked
    }
}

// A word that other programs have too.
fn with_common(
    rt: &HostRuntime,
    asked: Asked,
    index: usize,
    word: &[u8],
    ids: &mut [u32],
    addresses: &mut [u64],
) -> Asked
    requires { Holds asked ids addresses }
    ensures { Holds result ids.exit addresses.exit }
{
    let before = asked.options;
    with_options(
        asked,
        options::with_word(rt, before, index, word, ids, addresses),
    )
}

fn with_own(
    rt: &HostRuntime,
    asked: Asked,
    index: usize,
    word: &[u8],
    ids: &mut [u32],
    addresses: &mut [u64],
) -> Asked
    requires { Holds asked ids addresses }
    ensures { Holds result ids.exit addresses.exit }
{
    match word_of(word) {
        Word::WriteNext => Asked {
            write: Write::Next,
            ..asked
        },
        Word::Name => with_name(rt, asked, index, word),
        Word::Foreign => wronged(
            rt,
            asked,
            b"a replay is in standard mode with both flags off, and has no option ",
            word,
        ),
        Word::Common => with_common(rt, asked, index, word, ids, addresses),
    }
}

fn with_word(
    rt: &HostRuntime,
    asked: Asked,
    index: usize,
    word: &[u8],
    ids: &mut [u32],
    addresses: &mut [u64],
) -> Asked
    requires { Holds asked ids addresses }
    ensures { Holds result ids.exit addresses.exit }
{
    if matches!(asked.write, Write::Next) {
        return with_write(asked, index);
    }
    let before = asked.options;
    if before.next != Next::Any {
        return with_common(rt, asked, index, word, ids, addresses);
    }
    with_own(rt, asked, index, word, ids, addresses)
}

// The argument `index`, which is read here; one that is too long to read is no option, no number and no name.
fn with_argument(
    rt: &HostRuntime,
    asked: Asked,
    index: usize,
    ids: &mut [u32],
    addresses: &mut [u64],
) -> Asked
    requires { Holds asked ids addresses }
    ensures { Holds result ids.exit addresses.exit }
{
    let mut word = streams::word_room();
    let Some(n) = streams::read_word(rt, index, &mut word) else {
        return wronged(rt, asked, b"an argument is longer than ", b"4096 bytes");
    };
    with_word(rt, asked, index, &word[..n], ids, addresses)
}

// Both names have to be there.
fn named(rt: &HostRuntime, asked: Asked) -> Asked
    ensures { (result.options.page ≡ asked.options.page) × (result.options.helpers ≡ asked.options.helpers) }
{
    if asked.filter == 0 {
        return wronged(rt, asked, b"the filter and the capture are missing", b"");
    }
    if asked.capture == 0 {
        return wronged(rt, asked, b"the capture is missing behind the filter", b"");
    }
    asked
}

// The last word wants another behind it, or a name is missing. Where something else is wrong, or the help is asked for, no name is missed.
fn complete(rt: &HostRuntime, asked: Asked) -> Asked
    ensures { (result.options.page ≡ asked.options.page) × (result.options.helpers ≡ asked.options.helpers) }
{
    if matches!(asked.write, Write::Next) {
        return wronged(rt, asked, b"the file is missing behind ", b"--write");
    }
    let before = asked.options;
    let completed = options::complete(rt, before);
    if completed.wrong {
        return with_options(asked, completed);
    }
    if completed.help {
        return asked;
    }
    named(rt, asked)
}

// What the arguments ask for. What they say is the operating system's; the page is one that there is room for, and the helpers stand at the
// start of `ids` and `addresses`.
pub fn read_asked(rt: &HostRuntime, ids: &mut [u32], addresses: &mut [u64]) -> Asked
    ensures { Holds result ids.exit addresses.exit }
{
    let count = streams::word_count(rt);
    let mut asked = Asked {
        options: unasked(Program::Replay),
        filter: 0,
        capture: 0,
        write: Write::Nowhere,
    };
    for index in 1..count {
        asked = with_argument(rt, asked, index, ids, addresses);
    }
    complete(rt, asked)
}
