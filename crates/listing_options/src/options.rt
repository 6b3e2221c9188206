// What the arguments ask for. A word that is not known, and a number or a helper that is none, get a sentence on standard error, which begins
// with the program's name.
ghost use Rattle.std.specs.Prelude.{◌≡◌, ◌+◌, ◌≤◌};
ghost use Rattle.jit.specs.Limits.{longest_page};
ghost use Rattle.text.specs.Lent.{Says, given};
ghost use Rattle.listing_options.specs.Options.{Held};
ghost use Rattle.listing_options.specs.Help.{name_of, complaint};

use jit::{Flags, LONGEST_PAGE, MOST_HELPERS, Mode, SHORTEST_PAGE};
use listing_arguments::{Word, helper_of, mode_with, number_of, word_of};
use text::form::put_form;
use text::text::put_text;

// One byte more than a page may have: a longer one is refused for it, however long it is.
pub const LARGEST: usize = LONGEST_PAGE + 1;

// A number and a word fit.
pub const WORD: usize = 32;

// No complaint is longer: a word has at most 4096 bytes.
pub const SENTENCE: usize = 4096 + 256;

// Which program is asked.
#[derive(Clone, Copy)]
pub enum Program {
    Listing,
    Map,
    Maps,
    Replay,
}

// What the next word is.
#[derive(Clone, Copy, PartialEq, Eq)]
pub enum Next {
    Any,
    // The word before it was --page, or --helper.
    Page,
    Helper,
}

#[derive(Clone, Copy)]
pub struct Options {
    pub program: Program,
    pub flags: Flags,
    pub mode: Mode,
    pub page: usize,
    // Which argument is the file's name; 0 where there is none.
    pub file: usize,
    // How many helpers are listed. Their ids and addresses stay in two slices, as the C interface and `translate` take them.
    pub helpers: usize,
    pub help: bool,
    pub wrong: bool,
    pub next: Next,
}

fn put_name(line: &mut [u8], program: Program) -> usize
    ensures { Says line 0 result (name_of program) }
{
    match program {
        Program::Listing => put_text(line, 0, b"listing: "),
        Program::Map => put_text(line, 0, b"map: "),
        Program::Maps => put_text(line, 0, b"maps: "),
        Program::Replay => put_text(line, 0, b"replay: "),
    }
}

// What is wrong, and the word with which it is so: a sentence, which is put into `line` and written to standard error.
pub fn complain(
    rt: &HostRuntime,
    line: &mut [u8],
    program: Program,
    what: &[u8],
    word: &[u8],
) -> usize
    ensures { Says line 0 result (complaint program (given what) (given word)) }
{
    let name = put_name(line, program);
    let wrong = put_text(line, name, what);
    let with = put_text(line, wrong, word);
    let end = put_text(line, with, b" (--help explains the arguments)\n");
    if end <= line.len() {
        streams::tell(rt, &line[..end]);
    }
    end
}

// The options, of which it is said what is wrong with them.
pub fn wronged(rt: &HostRuntime, options: Options, what: &[u8], word: &[u8]) -> Options
    ensures { (result.page ≡ options.page) × (result.helpers ≡ options.helpers) }
{
    let mut line = [0u8; SENTENCE];
    complain(rt, &mut line, options.program, what, word);
    Options {
        wrong: true,
        ..options
    }
}

// What is above the largest page stays there.
fn clamped(n: u64) -> usize
    ensures { result ≤ longest_page + 1 }
{
    n.min(LARGEST as u64) as usize
}

fn with_page(rt: &HostRuntime, options: Options, word: &[u8]) -> Options
    requires { options.page ≤ longest_page + 1 }
    ensures { (result.page ≤ longest_page + 1) × (result.helpers ≡ options.helpers) }
{
    let read = Options {
        next: Next::Any,
        ..options
    };
    match number_of(word) {
        Some(n) => Options {
            page: clamped(n),
            ..read
        },
        None => wronged(rt, read, b"the page size is not a number: ", word),
    }
}

fn with_one_too_many(rt: &HostRuntime, options: Options) -> Options
    ensures { (result.page ≡ options.page) × (result.helpers ≡ options.helpers) }
{
    let mut most = [0u8; WORD];
    let end = put_form(&mut most, 0, b"# helpers", &[MOST_HELPERS as u64]);
    wronged(rt, options, b"a filter has at most ", &most[..end])
}

fn with_listed(
    rt: &HostRuntime,
    options: Options,
    id: u32,
    address: u64,
    ids: &mut [u32],
    addresses: &mut [u64],
) -> Options
    requires { Held options ids addresses }
    ensures { Held result ids.exit addresses.exit }
{
    let at = options.helpers;
    if ids.len() <= at || addresses.len() <= at {
        return with_one_too_many(rt, options);
    }
    ids[at] = id;
    addresses[at] = address;
    Options {
        helpers: at + 1,
        ..options
    }
}

fn with_helper(
    rt: &HostRuntime,
    options: Options,
    word: &[u8],
    ids: &mut [u32],
    addresses: &mut [u64],
) -> Options
    requires { Held options ids addresses }
    ensures { Held result ids.exit addresses.exit }
{
    let read = Options {
        next: Next::Any,
        ..options
    };
    match helper_of(word) {
        Some((id, address)) => with_listed(rt, read, id, address, ids, addresses),
        None => wronged(
            rt,
            read,
            b"a helper is ID or ID=ADDRESS, in decimal or behind 0x in hexadecimal, and not ",
            word,
        ),
    }
}

fn with_file(rt: &HostRuntime, options: Options, index: usize, word: &[u8]) -> Options
    ensures { (result.page ≡ options.page) × (result.helpers ≡ options.helpers) }
{
    if 0 < options.file {
        return wronged(rt, options, b"a second file: ", word);
    }
    Options {
        file: index,
        ..options
    }
}

// A word that is no number and no helper.
fn with_option(rt: &HostRuntime, options: Options, index: usize, word: &[u8]) -> Options
    ensures { (result.page ≡ options.page) × (result.helpers ≡ options.helpers) }
{
    let asked = word_of(word);
    match asked {
        Word::Mbuff => Options {
            flags: Flags {
                use_mbuff: true,
                ..options.flags
            },
            ..options
        },
        Word::UpdateDataPtr => Options {
            flags: Flags {
                update_data_ptr: true,
                ..options.flags
            },
            ..options
        },
        Word::Standard | Word::Compact => Options {
            mode: mode_with(options.mode, asked),
            ..options
        },
        Word::PageSize => Options {
            next: Next::Page,
            ..options
        },
        Word::HelperNext => Options {
            next: Next::Helper,
            ..options
        },
        Word::Help => Options {
            help: true,
            ..options
        },
        Word::File => with_file(rt, options, index, word),
        Word::Unknown => wronged(rt, options, b"unknown option ", word),
    }
}

// The options with one more word, which is the argument `index`.
pub fn with_word(
    rt: &HostRuntime,
    options: Options,
    index: usize,
    word: &[u8],
    ids: &mut [u32],
    addresses: &mut [u64],
) -> Options
    requires { Held options ids addresses }
    ensures { Held result ids.exit addresses.exit }
{
    match options.next {
        Next::Any => with_option(rt, options, index, word),
        Next::Page => with_page(rt, options, word),
        Next::Helper => with_helper(rt, options, word, ids, addresses),
    }
}

// The argument `index`, which is read here; one that is too long to read is no option, no number and no file.
fn with_argument(
    rt: &HostRuntime,
    options: Options,
    index: usize,
    ids: &mut [u32],
    addresses: &mut [u64],
) -> Options
    requires { Held options ids addresses }
    ensures { Held result ids.exit addresses.exit }
{
    let mut word = streams::word_room();
    let Some(n) = streams::read_word(rt, index, &mut word) else {
        return wronged(rt, options, b"an argument is longer than ", b"4096 bytes");
    };
    with_word(rt, options, index, &word[..n], ids, addresses)
}

// The last word wants another behind it.
pub fn complete(rt: &HostRuntime, options: Options) -> Options
    ensures { (result.page ≡ options.page) × (result.helpers ≡ options.helpers) }
{
    match options.next {
        Next::Any => options,
        Next::Page => wronged(rt, options, b"the page size is missing behind ", b"--page"),
        Next::Helper => wronged(rt, options, b"the helper is missing behind ", b"--helper"),
    }
}

// What holds where no word is said.
pub fn unasked(program: Program) -> Options
    ensures { (result.page ≤ longest_page + 1) × (result.helpers ≡ 0) }
{
    Options {
        program,
        flags: Flags {
            use_mbuff: false,
            update_data_ptr: false,
        },
        mode: Mode {
            standard: false,
            compact: false,
        },
        page: SHORTEST_PAGE,
        file: 0,
        helpers: 0,
        help: false,
        wrong: false,
        next: Next::Any,
    }
}

// The options of a program, which are its arguments from number `from` on. What they say is the operating system's; the page is one that there
// is room for, and the helpers stand at the start of `ids` and `addresses`.
pub fn read_options(
    rt: &HostRuntime,
    program: Program,
    from: usize,
    ids: &mut [u32],
    addresses: &mut [u64],
) -> Options
    ensures { Held result ids.exit addresses.exit }
{
    let count = streams::word_count(rt);
    let mut options = unasked(program);
    for i in from..count {
        options = with_argument(rt, options, i, ids, addresses);
    }
    complete(rt, options)
}
