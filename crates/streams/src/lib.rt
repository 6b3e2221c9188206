// The outside world, as bytes: standard input, output and error, files that are named, and the words of the command line. What comes, and
// whether what is written goes anywhere, is the system's to say; the contracts say how much of what is lent is filled.

#![tactic(auto)]

ghost use Rattle.std.specs.Prelude.{◌≡◌, ◌≤◌, length, IfSome};
ghost use Rattle.std.specs.Io.{ReadsAtMost};

use std::env::{Env, FillError};
use std::fs::{File, OpenOptions};
use std::io::{IsTerminal, Read, Stderr, Stdin, Stdout, Write};
use std::str::Utf8Error;
use std::{fs, io, str};

// Why the system did not do what it was asked: its number of the error.
#[derive(Clone, Copy)]
pub struct Reason {
    number: i32,
}

// Of an error that has no number of the system's: an input or output error.
const UNKNOWN: i32 = 5;

// A name has to be UTF-8: an invalid or incomplete multibyte or wide character.
const NO_TEXT: i32 = 84;

// The longest word of the command line that is read whole.
pub const LONGEST_WORD: usize = 4096;

// What bytes are read from.
#[derive(Drop)]
pub enum Source {
    Input(Stdin),
    Named(File),
}

// What bytes are written to.
#[derive(Drop)]
pub enum Sink {
    Output(Stdout),
    Errors(Stderr),
    Named(File),
}

impl From<io::Error> for Reason {
    fn from(error: io::Error) -> Reason {
        Reason {
            number: error.raw_os_error().unwrap_or(UNKNOWN),
        }
    }
}

// A name that is no text names no file.
impl From<Utf8Error> for Reason {
    fn from(_error: Utf8Error) -> Reason {
        Reason { number: NO_TEXT }
    }
}

// Room for a word of the command line, all zeros.
pub fn word_room() -> [u8; LONGEST_WORD]
    ensures { 4096 ≡ length result }
{
    [0; LONGEST_WORD]
}

// Whether the command line has a word of that number. Word 0 is the program's name.
fn is_word(rt: &HostRuntime, index: usize) -> bool {
    let mut first = [0u8; 1];
    !matches!(rt.arg(index, &mut first), Err(FillError::NotPresent))
}

// How many words the command line has, the program's name among them.
pub fn word_count(rt: &HostRuntime) -> usize {
    for index in 0..usize::MAX {
        if !is_word(rt, index) {
            return index;
        }
    }
    usize::MAX
}

// A word of the command line, at the start of `word`, and how many bytes it has; nothing where it is not there or is longer than `word`.
pub fn read_word(rt: &HostRuntime, index: usize, word: &mut [u8]) -> Option<usize>
    ensures { IfSome result (λ n. n ≤ length word.new) }
{
    rt.arg(index, word).ok()
}

// The same, where a word that is not there or is longer than `word` is as an empty one.
pub fn word_or_empty(rt: &HostRuntime, index: usize, word: &mut [u8]) -> usize
    ensures { result ≤ length word.new }
{
    read_word(rt, index, word).unwrap_or(0)
}

pub fn input(rt: &HostRuntime) -> Source {
    Source::Input(rt.stdin())
}

pub fn output(rt: &HostRuntime) -> Sink {
    Sink::Output(rt.stdout())
}

pub fn errors(rt: &HostRuntime) -> Sink {
    Sink::Errors(rt.stderr())
}

// The file of that name, for reading.
pub fn open(rt: &HostRuntime, name: &[u8]) -> Result<Source, Reason> {
    Ok(Source::Named(fs::open(rt, str::from_utf8(name)?)?))
}

// The file of that name, for writing: it is made, or emptied where it is there.
pub fn create(rt: &HostRuntime, name: &[u8]) -> Result<Sink, Reason> {
    Ok(Sink::Named(fs::create(rt, str::from_utf8(name)?)?))
}

// Standard error, where it is a terminal.
pub fn terminal_of_errors(rt: &HostRuntime) -> Option<Sink> {
    let errors = rt.stderr();
    if errors.is_terminal() {
        return Some(Sink::Errors(errors));
    }
    None
}

// The terminal of that name, where it is one.
pub fn terminal_named(rt: &HostRuntime, name: &str) -> Option<Sink> {
    let file = OpenOptions::new()
        .read(true)
        .write(true)
        .open(rt, name)
        .ok()?;
    if file.is_terminal() {
        return Some(Sink::Named(file));
    }
    None
}

// The next bytes, at the start of `buffer`, and how many they are: none at the end, and where `buffer` is empty.
pub fn read(from: &Source, buffer: &mut [u8]) -> Result<usize, Reason>
    ensures { ReadsAtMost result buffer.new }
{
    let got = match from {
        Source::Input(stdin) => {
            let mut reader = *stdin;
            reader.read(buffer)
        }
        Source::Named(file) => {
            let mut reader: &File = file;
            reader.read(buffer)
        }
    };
    Ok(got?)
}

// All of the bytes, or some of them where that fails.
pub fn write(to: &Sink, bytes: &[u8]) -> Result<(), Reason> {
    let done = match to {
        Sink::Output(stdout) => {
            let mut writer = *stdout;
            Write::write_all(&mut writer, bytes)
        }
        Sink::Errors(stderr) => {
            let mut writer = *stderr;
            Write::write_all(&mut writer, bytes)
        }
        Sink::Named(file) => {
            let mut writer: &File = file;
            Write::write_all(&mut writer, bytes)
        }
    };
    Ok(done?)
}

// On standard output; what cannot be written is let go.
pub fn show(rt: &HostRuntime, bytes: &[u8]) {
    let _ = write(&output(rt), bytes);
}

// On standard error; what cannot be written is let go.
pub fn tell(rt: &HostRuntime, bytes: &[u8]) {
    let _ = write(&errors(rt), bytes);
}

// The system's words for a reason, at the start of `text`, and how many bytes they are. The library ends them with ` (os error N)`, which is
// left away.
fn put_reason(text: &mut [u8], reason: Reason) -> usize
    ensures { result ≤ length text.new }
{
    let error = io::Error::from_raw_os_error(reason.number);
    let room = text.len();
    let mut rest: &mut [u8] = text;
    let _ = write!(rest, "{error}");
    let end = room.saturating_sub(rest.len());
    let words = &text[..end];
    match words.iter().rposition(|b| *b == b'(') {
        Some(at) => at.saturating_sub(1),
        None => end,
    }
}

// On standard error, what failed and why: `WHAT: No such file or directory`.
pub fn fail(rt: &HostRuntime, what: &[u8], reason: Reason) {
    let mut text = [0u8; 128];
    let end = put_reason(&mut text, reason);
    tell(rt, what);
    tell(rt, b": ");
    tell(rt, &text[..end]);
    tell(rt, b"\n");
}
