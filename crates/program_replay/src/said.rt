// What is said: the report, a refusal, and how far a long replay is.
use crate::space;
use cases_bytes::answer::put_refused_line;
use listing_lines::write_line;
use replay::{Refusal, Totals};
use replay_text::refusal::{number_of, sentence, slot_of};
use replay_text::report::put_report;
use streams::Sink;
use text::form::put_form;

// A refusal's lines fit.
const LINE: usize = 256;

// Windows from one line of progress to the next.
const OFTEN: u64 = 16;

pub(crate) fn refuse(rt: &HostRuntime, program: &[u8], refusal: Refusal) {
    let mut line = [0u8; LINE];
    let number = number_of(refusal);
    let slot = slot_of(refusal);
    let end = put_refused_line(&mut line, number, slot);
    streams::tell(rt, &line[..end]);
    let end = sentence(program, refusal, &mut line);
    write_line(&streams::errors(rt), &mut line, end);
}

pub(crate) fn report(rt: &HostRuntime, program: &[u8], totals: Totals, counts: &[u64]) {
    let mut text = space::for_report();
    let end = put_report(&mut text, 0, program, totals, counts);
    match streams::write(&streams::output(rt), &text[..end]) {
        Ok(()) => (),
        Err(reason) => streams::fail(rt, b"standard output", reason),
    }
}

// On the terminal, over the line before; a short replay shows nothing.
pub(crate) fn show_progress(shown: &Option<Sink>, windows: u64, packets: u64) {
    let Some(terminal) = shown else {
        return;
    };
    if windows % OFTEN != OFTEN - 1 {
        return;
    }
    let mut line = [0u8; LINE];
    let end = put_form(&mut line, 0, b"\rreplay: # packets", &[packets]);
    let _ = streams::write(terminal, &line[..end]);
}

pub(crate) fn clear_progress(shown: &Option<Sink>, windows: u64) {
    let Some(terminal) = shown else {
        return;
    };
    if windows < OFTEN {
        return;
    }
    let _ = streams::write(terminal, b"\r                                        \r");
}
