// A capture, read and run window by window: however long it is, it takes the memory of one.
ghost use Rattle.std.specs.Prelude.{◌≤◌, length};
ghost use Rattle.program_replay.specs.Windows.{PartIn, TurnIn};

use crate::files::{fail_reading, open_kept};
use crate::said::{clear_progress, refuse, report, show_progress};
use crate::space;
use crate::space::WINDOW;
use cases_bytes::stream;
use pcap::{HEADER, Order, Record, header_of, record_of};
use replay::{Refusal, Totals};
use replay_capture::Report;
use replay_capture::window::replay_window;
use std::ops::ControlFlow;
use streams::{Sink, Source};

// What is asked of the translator.
#[derive(Clone, Copy)]
pub struct Filter<'a> {
    pub program: &'a [u8],
    pub ids: &'a [u32],
    pub addresses: &'a [u64],
    pub page: usize,
}

// A capture that is open, by its name, and what is asked for of it.
#[derive(Drop)]
pub struct Capture<'a> {
    pub source: Source,
    pub name: &'a [u8],
    // The terminal that progress is shown on.
    pub shown: Option<Sink>,
    // Which argument is the name of the file for the kept packets, where they are written.
    pub write: Option<usize>,
}

// What stays the same from window to window.
#[derive(Drop)]
struct Reading<'a> {
    source: Source,
    name: &'a [u8],
    order: Order,
    shown: Option<Sink>,
    // The file for the kept packets.
    out: Option<Sink>,
}

// How a replay stands behind a window that it goes on from: what was counted, and how many bytes of the window are left.
#[derive(Clone, Copy)]
pub struct Part {
    pub totals: Totals,
    pub left: usize,
}

// .. and where they are in the buffer.
#[derive(Clone, Copy)]
pub struct Turn {
    pub totals: Totals,
    pub start: usize,
    pub end: usize,
}

fn is_too_long(record: Record) -> bool {
    matches!(record, Record::TooLong)
}

// The first bytes of `kept`, where a file is open for them; whether they are written.
fn write_kept(rt: &HostRuntime, out: &Option<Sink>, kept: &[u8], length: usize) -> bool {
    let Some(file) = out else {
        return true;
    };
    if kept.len() < length {
        streams::tell(rt, b"a replay answers more kept packets than there are\n");
        return false;
    }
    match streams::write(file, &kept[..length]) {
        Ok(()) => true,
        Err(reason) => {
            streams::fail(rt, b"the kept packets", reason);
            false
        }
    }
}

// Behind a window of which `used` bytes were whole records. A window that begins with none is the end of a capture that is cut short, or has
// a record that is too long, and so has one whose rest begins with that: it is said before more is read. None where standard error says why the
// replay stops.
fn behind_window(
    rt: &HostRuntime,
    order: Order,
    window: &[u8],
    used: usize,
    totals: Totals,
) -> Option<ControlFlow<Report, Part>>
    ensures { PartIn (length window.now) result }
{
    if used == 0 {
        return Some(ControlFlow::Break(Report::Cut(totals)));
    }
    if window.len() < used {
        streams::tell(rt, b"a replay answers a length beyond its window\n");
        return None;
    }
    if is_too_long(record_of(order, &window[used..])) {
        return Some(ControlFlow::Break(Report::Cut(totals)));
    }
    let left = window.len() - used;
    Some(ControlFlow::Continue(Part { totals, left }))
}

// The same where `records` bytes of kept packets are to be written first.
fn behind_kept(
    rt: &HostRuntime,
    reading: &Reading,
    window: &[u8],
    used: usize,
    totals: Totals,
    kept: &[u8],
    records: usize,
) -> Option<ControlFlow<Report, Part>>
    ensures { PartIn (length window.now) result }
{
    if !write_kept(rt, &reading.out, kept, records) {
        return None;
    }
    let order = reading.order;
    behind_window(rt, order, window, used, totals)
}

// A window of which something is there.
fn replay_part(
    rt: &HostRuntime,
    reading: &Reading,
    filter: Filter,
    window: &[u8],
    totals: Totals,
    counts: &mut [u64],
    kept: &mut [u8],
) -> Option<ControlFlow<Report, Part>>
    ensures { PartIn (length window.now) result }
{
    let order = reading.order;
    let program = filter.program;
    let mut copy = space::for_packet();
    match replay_window(
        program,
        filter.ids,
        filter.addresses,
        filter.page,
        order,
        window,
        totals,
        counts,
        &mut copy,
        kept,
    ) {
        Err(refusal) => {
            refuse(rt, program, refusal);
            None
        }
        Ok(progress) => {
            let more = progress.totals;
            behind_kept(
                rt,
                reading,
                window,
                progress.used,
                more,
                kept,
                progress.kept,
            )
        }
    }
}

// What was left of the window before stands at the head of this one.
fn replay_next(
    rt: &HostRuntime,
    reading: &Reading,
    filter: Filter,
    turn: Turn,
    buffer: &mut [u8],
    counts: &mut [u64],
    kept: &mut [u8],
) -> Option<ControlFlow<Report, Turn>>
    requires { (turn.start ≤ turn.end) × (turn.end ≤ length buffer.old) }
    ensures { TurnIn (length buffer.new) result }
{
    let totals = turn.totals;
    let left = stream::Window {
        start: turn.start,
        end: turn.end,
    };
    let window = match stream::widened(&reading.source, buffer, left, WINDOW) {
        Ok(window) => window,
        Err(reason) => {
            fail_reading(rt, reading.name, reason);
            return None;
        }
    };
    let start = window.start;
    let end = window.end;
    if start == end {
        return Some(ControlFlow::Break(Report::Whole(totals)));
    }
    let part = replay_part(
        rt,
        reading,
        filter,
        &buffer[start..end],
        totals,
        counts,
        kept,
    )?;
    match part {
        ControlFlow::Break(report) => Some(ControlFlow::Break(report)),
        ControlFlow::Continue(part) => Some(ControlFlow::Continue(Turn {
            totals: part.totals,
            start: end - part.left,
            end,
        })),
    }
}

// A proved loop has to end, and nothing says that a capture does: so it counts its windows, to a number that none reaches.
fn replay_all(
    rt: &HostRuntime,
    reading: &Reading,
    filter: Filter,
    begun: Turn,
    buffer: &mut [u8],
    counts: &mut [u64],
    kept: &mut [u8],
) -> Option<Report>
    requires { (begun.start ≤ begun.end) × (begun.end ≤ length buffer.old) }
{
    let mut turn = begun;
    for windows in 0..u64::MAX {
        let next = replay_next(rt, reading, filter, turn, buffer, counts, kept);
        match next {
            Some(ControlFlow::Continue(more)) => {
                turn = more;
                let totals = more.totals;
                show_progress(&reading.shown, windows, totals.packets);
            }
            Some(ControlFlow::Break(report)) => {
                clear_progress(&reading.shown, windows);
                return Some(report);
            }
            None => {
                clear_progress(&reading.shown, windows);
                return None;
            }
        }
    }
    None
}

fn tell(rt: &HostRuntime, ended: Report, program: &[u8], counts: &[u64]) {
    match ended {
        Report::Whole(totals) => report(rt, program, totals, counts),
        Report::Cut(totals) => {
            report(rt, program, totals, counts);
            refuse(rt, program, Refusal::BadRecord);
        }
    }
}

// What is kept is given room where it is written.
fn room_for(out: &Option<Sink>) -> usize
    ensures { result ≤ 1048576 }
{
    match out {
        None => 0,
        Some(_) => WINDOW,
    }
}

// The capture's header, whose `end` bytes are read with what is behind it, is the kept packets' too.
fn replay_records(
    rt: &HostRuntime,
    reading: &Reading,
    filter: Filter,
    buffer: &mut [u8],
    end: usize,
)
    requires { (24 ≤ end) × (end ≤ length buffer.old) }
{
    if !write_kept(rt, &reading.out, buffer, HEADER) {
        return;
    }
    let begun = Turn {
        totals: Totals::default(),
        start: HEADER,
        end,
    };
    let mut counts = space::for_counts();
    let mut kept = space::for_window();
    let room = room_for(&reading.out);
    let ended = replay_all(
        rt,
        reading,
        filter,
        begun,
        buffer,
        &mut counts,
        &mut kept[..room],
    );
    if let Some(ended) = ended {
        tell(rt, ended, filter.program, &counts);
    }
}

fn replay_ordered(
    rt: &HostRuntime,
    capture: Capture,
    order: Order,
    filter: Filter,
    buffer: &mut [u8],
    end: usize,
)
    requires { (24 ≤ end) × (end ≤ length buffer.old) }
{
    let Capture {
        source,
        name,
        shown,
        write,
    } = capture;
    let out = match write {
        None => None,
        Some(index) => {
            let Some(file) = open_kept(rt, index, name) else {
                return;
            };
            Some(file)
        }
    };
    let reading = Reading {
        source,
        name,
        order,
        shown,
        out,
    };
    replay_records(rt, &reading, filter, buffer, end);
}

// Of the capture its header first.
pub(crate) fn replay_source(rt: &HostRuntime, capture: Capture, filter: Filter) {
    let mut buffer = space::for_window();
    let read = stream::fill(&capture.source, &mut buffer, 0, HEADER);
    let end = match read {
        Ok(window) => window.end,
        Err(reason) => {
            fail_reading(rt, capture.name, reason);
            return;
        }
    };
    match header_of(&buffer[..end]) {
        None => refuse(rt, filter.program, Refusal::NotPcap),
        Some(order) => replay_ordered(rt, capture, order, filter, &mut buffer, end),
    }
}
