// A loop over the records of a stream, turn by turn, and what the programs that read cases do with each.
ghost use Rattle.std.specs.Prelude.{◌≡◌};
ghost use Rattle.cases_bytes.specs.Lent.{turn_behind, case_in};

use crate::limits::{CASE, HELPERS};
use crate::parts::{Case, take_apart};
use crate::stream::{Window, next_record};
use cases_problems::Problem;
use std::ops::ControlFlow;
use text::form::put_form;

// A record's number fits.
const LINE: usize = 64;

// Why the stream is not read on, said of a record and its number; its end needs no word.
pub fn say_why(rt: &HostRuntime, record: &[u8], index: u64, wrong: Problem) {
    if wrong != Problem::End {
        cases_problems::report(rt, record, index, wrong);
    }
}

// Each record of standard input, of at most `limit` bytes, up to the stream's end, to one that is wrong, or until `visit` breaks off. A proved
// loop has to end, and nothing says that a stream does: so it counts its records, to a number that none reaches.
pub fn each_record<F: FnMut(u64, &[u8]) -> ControlFlow<()>>(
    rt: &HostRuntime,
    record: &[u8],
    input: &mut [u8],
    limit: usize,
    mut visit: F,
)
    requires { F.IsAlwaysCallable visit }
{
    let mut window = Window { start: 0, end: 0 };
    for index in 0..u64::MAX {
        match next_record(&streams::input(rt), input, window, limit) {
            Err(wrong) => {
                say_why(rt, record, index, wrong);
                return;
            }
            Ok(next) => {
                window = next.rest;
                if visit(index, &input[next.at..window.start]).is_break() {
                    return;
                }
            }
        }
    }
}

fn show_number(rt: &HostRuntime, index: u64) {
    let mut line = [0u8; LINE];
    let end = put_form(&mut line, 0, b"case #\n", &[index]);
    streams::show(rt, &line[..end]);
}

// The case in a record's body: its number on standard output, and what `show` does with its parts, its program, helper ids and addresses. One
// that is malformed is reported, and ends the run.
pub fn show_case<F: FnOnce(Case, &[u8], &[u32], &[u64])>(
    rt: &HostRuntime,
    index: u64,
    body: &[u8],
    show: F,
) -> ControlFlow<()>
    requires { F.IsAlwaysCallable show }
    ensures { result ≡ turn_behind (case_in body) }
{
    let mut ids = [0u32; HELPERS];
    let mut addresses = [0u64; HELPERS];
    match take_apart(body, &mut ids, &mut addresses) {
        Err(malformed) => {
            cases_problems::report(rt, b"case", index, malformed);
            ControlFlow::Break(())
        }
        Ok(case) => {
            show_number(rt, index);
            show(
                case,
                &body[case.program..],
                &ids[..case.ids],
                &addresses[..case.addresses],
            );
            ControlFlow::Continue(())
        }
    }
}
