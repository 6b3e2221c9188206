// Replays a filter over a capture: which of its packets the filter would have kept, and how often each slot ran. The report goes to standard
// output. A refusal is a line on standard error, as `refused 17 0`, its number and its slot, and behind it a line that says why.

#![tactic(auto)]

mod capture;
mod files;
mod said;
mod space;

use capture::{Capture, Filter, replay_source};
use files::{open_capture, terminal};
use jit::MOST_HELPERS;
use listing_options::filter::read_filter;
use replay_capture::decide::decide_replay;
use replay_options::help::put_options;
use replay_options::options::{Asked, Write, read_asked};
use said::refuse;
use space::{TABLE, for_filter};
use streams::Sink;

// The lines that explain the options are no longer.
const HELP: usize = 1024;

fn explain(rt: &HostRuntime) {
    streams::show(
        rt,
        b"replay [OPTIONS] FILTER CAPTURE: what the bytecode in FILTER would have kept of CAPTURE, a libpcap file, or - for standard input.\n",
    );
    streams::show(
        rt,
        b"Each packet is run on a model of RFC 9669, as standard mode has it; behind the totals stands how often each slot ran.\n",
    );
    streams::show(
        rt,
        b"A refusal goes to standard error, as: refused NUMBER SLOT, and its reason. A filter that calls helpers is not replayed.\n",
    );
    let mut options = [0u8; HELP];
    let end = put_options(&mut options);
    streams::show(rt, &options[..end]);
    streams::show(
        rt,
        b"N, ID and ADDRESS are decimal, or hexadecimal behind 0x.\n",
    );
}

// The capture is opened once the filter is known to be run.
fn replay_opened(rt: &HostRuntime, asked: Asked, filter: Filter, shown: Option<Sink>) {
    let mut name = streams::word_room();
    let n = streams::word_or_empty(rt, asked.capture, &mut name);
    let Some(source) = open_capture(rt, &name[..n]) else {
        return;
    };
    let write = match asked.write {
        Write::To(index) => Some(index),
        Write::Nowhere | Write::Next => None,
    };
    let capture = Capture {
        source,
        name: &name[..n],
        shown,
        write,
    };
    replay_source(rt, capture, filter);
}

fn replay_filter(rt: &HostRuntime, asked: Asked, filter: Filter, shown: Option<Sink>) {
    let program = filter.program;
    match decide_replay(program, filter.ids, filter.addresses, filter.page, TABLE) {
        Err(refusal) => refuse(rt, program, refusal),
        Ok(()) => replay_opened(rt, asked, filter, shown),
    }
}

fn replay_asked(rt: &HostRuntime, asked: Asked, ids: &[u32], addresses: &[u64]) {
    // Nothing is open yet: a terminal that is found was given.
    let shown = terminal(rt);
    let mut input = for_filter();
    let Some(length) = read_filter(rt, asked.filter, &mut input) else {
        return;
    };
    let options = asked.options;
    let filter = Filter {
        program: &input[..length],
        ids,
        addresses,
        page: options.page,
    };
    replay_filter(rt, asked, filter, shown);
}

fn main(rt: HostRuntime) {
    let mut ids = [0u32; MOST_HELPERS];
    let mut addresses = [0u64; MOST_HELPERS];
    let asked = read_asked(&rt, &mut ids, &mut addresses);
    let options = asked.options;
    if options.wrong {
        return;
    }
    if options.help {
        explain(&rt);
        return;
    }
    let n = options.helpers;
    replay_asked(&rt, asked, &ids[..n], &addresses[..n]);
}
