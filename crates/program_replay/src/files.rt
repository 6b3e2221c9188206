// What is open: the capture, the file for the kept packets, and the terminal that shows how far a replay is.
use listing_arguments::is;
use listing_options::options::{Program, SENTENCE, complain};
use streams::{Reason, Sink, Source};

// Where ./run, which listens to standard error, hands on its own.
const HANDED_ON: &str = "/dev/fd/4";

// The terminal that progress is shown on: standard error, where it is one.
pub(crate) fn terminal(rt: &HostRuntime) -> Option<Sink> {
    match streams::terminal_of_errors(rt) {
        Some(own) => Some(own),
        None => streams::terminal_named(rt, HANDED_ON),
    }
}

// The system's reason why a capture is not read.
pub(crate) fn fail_reading(rt: &HostRuntime, name: &[u8], reason: Reason) {
    if is(name, b"-") {
        streams::fail(rt, b"standard input", reason);
        return;
    }
    streams::fail(rt, name, reason);
}

// The capture; nothing where standard error says why.
pub(crate) fn open_capture(rt: &HostRuntime, name: &[u8]) -> Option<Source> {
    if is(name, b"-") {
        return Some(streams::input(rt));
    }
    match streams::open(rt, name) {
        Ok(file) => Some(file),
        Err(reason) => {
            streams::fail(rt, name, reason);
            None
        }
    }
}

fn open_written(rt: &HostRuntime, name: &[u8]) -> Option<Sink> {
    match streams::create(rt, name) {
        Ok(file) => Some(file),
        Err(reason) => {
            streams::fail(rt, name, reason);
            None
        }
    }
}

// The file whose name is the argument `write`; nothing where standard error says why. Written over the capture, it would end the reading of it.
pub(crate) fn open_kept(rt: &HostRuntime, write: usize, capture: &[u8]) -> Option<Sink> {
    let mut name = streams::word_room();
    let n = streams::word_or_empty(rt, write, &mut name);
    if is(&name[..n], capture) {
        let mut line = [0u8; SENTENCE];
        complain(
            rt,
            &mut line,
            Program::Replay,
            b"--write would write over the capture: ",
            capture,
        );
        return None;
    }
    open_written(rt, &name[..n])
}
