// Reads answers, as the program `answers` writes them, from standard input, and writes the instructions of each accepted page to standard
// output, as the proved reader takes them and in the proved text, to be compared with another disassembler's. An answer: four bytes with
// the length of the rest, lowest first; a byte that is 0 where it was accepted; four bytes each with L, J and n + 1; the L bytes of the
// page; then the tables. A refused one has nothing to show.
//
// For each page: `page N`, where N is the answer's number in the stream, counted from 0; then a line for each instruction: the place of its
// first byte in hexadecimal, its length in decimal, its text. Where the reader knows no instruction the line ends in `bad`, with the length
// 0, and it is the page's last.

#![tactic(auto)]

ghost use Rattle.std.specs.Prelude.{◌≤◌, ◌<◌, length, IfOk};

use cases_bytes::output::{flush, made_room};
use cases_bytes::turn::each_record;
use cases_bytes::{limits, numbers};
use cases_problems::Problem;
use std::ops::ControlFlow;
use streams::Reason;
use text::form::put_form;
use text::text::put_byte;
use x86_instructions::Instruction;
use x86_reader::decode::decode;
use x86_text::instruction::put_instruction;

// The longest answer fits, with its length.
const INPUT: usize = 4 + limits::ANSWER;

const OUTPUT: usize = 65536;

// No line is longer.
const LINE: usize = 128;

const UNWRITTEN: &[u8] = b"the instructions cannot be written\n";

fn put_line(out: &mut [u8], at: usize, place: usize, i: Instruction, end: usize) -> usize
    requires { (at ≤ length out.old) × (place ≤ end) }
    ensures { result ≤ length out.new }
{
    let next = put_form(out, at, b"$ # ", &[place as u64, (end - place) as u64]);
    let next = put_instruction(out, next, i, end);
    put_byte(out, next, b'\n')
}

fn put_bad(out: &mut [u8], at: usize, place: usize) -> usize
    requires { at ≤ length out.old }
    ensures { result ≤ length out.new }
{
    put_form(out, at, b"$ 0 bad\n", &[place as u64])
}

// One instruction further: how much waits to be written, and the place of the next instruction.
#[derive(Clone, Copy)]
struct Step {
    at: usize,
    place: usize,
}

fn put_next(
    rt: &HostRuntime,
    out: &mut [u8],
    at: usize,
    code: &[u8],
    place: usize,
) -> Result<Step, Reason>
    requires { (at ≤ length out.old) × (place < length code.now) }
    ensures { IfOk result (λ step. (step.at ≤ length out.new) × ((place < step.place) × (step.place ≤ length code.now))) }
{
    let from = made_room(rt, out, at, LINE, UNWRITTEN)?;
    match decode(code, place) {
        None => Ok(Step {
            at: put_bad(out, from, place),
            place: code.len(),
        }),
        Some((i, end)) => Ok(Step {
            at: put_line(out, from, place, i, end),
            place: end,
        }),
    }
}

fn put_header(out: &mut [u8], index: u64) -> usize
    ensures { result ≤ length out.new }
{
    put_form(out, 0, b"page #\n", &[index])
}

fn print_page(rt: &HostRuntime, index: u64, code: &[u8], out: &mut [u8]) -> Result<(), Reason> {
    let mut at = put_header(out, index);
    let mut place = 0;
    while place < code.len() {
        let step = put_next(rt, out, at, code, place)?;
        at = step.at;
        place = step.place;
    }
    flush(rt, &out[..at], UNWRITTEN)
}

// Whether the stream is to be read on.
fn print_answer(rt: &HostRuntime, index: u64, answer: &[u8], out: &mut [u8]) -> ControlFlow<()> {
    let start = 13;
    if answer.len() < start {
        return ControlFlow::Continue(());
    }
    if answer[0] != 0 {
        return ControlFlow::Continue(());
    }
    let length = numbers::count_at(answer, 1);
    if answer.len() - start < length {
        cases_problems::report(rt, b"answer", index, Problem::Unfilled);
        return ControlFlow::Break(());
    }
    match print_page(rt, index, &answer[start..start + length], out) {
        Ok(()) => ControlFlow::Continue(()),
        Err(_) => ControlFlow::Break(()),
    }
}

fn main(rt: HostRuntime) {
    let mut input = [0u8; INPUT];
    let mut out = [0u8; OUTPUT];
    each_record(
        &rt,
        b"answer",
        &mut input,
        limits::ANSWER,
        |index, answer| { print_answer(&rt, index, answer, &mut out) },
    );
}
