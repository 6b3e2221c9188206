// Reads cases from standard input and writes the translator's answers to standard output, one for one. What is wrong with the stream,
// or with what the translator did to what it was lent, is said on standard error and ends the run; the answers before it stand.

#![tactic(auto)]

ghost use Rattle.std.specs.Prelude.{◌≤◌, length, IfSome};

use cases_bytes::limits::{ANSWER, PAGE, TABLE};
use cases_bytes::output::{flush, made_room};
use cases_bytes::stream::{Window, is_at_hand};
use cases_bytes::turn::say_why;
use cases_run::run::{Lent, run_next};

// The longest case fits several times, and so do short answers ahead of the longest.
const INPUT: usize = 131072;

const OUTPUT: usize = 262144;

const UNWRITTEN: &[u8] = b"the answers cannot be written\n";

// One case further: what is there of the next ones, and how many bytes of answers wait to be written.
#[derive(Clone, Copy)]
struct Turn {
    window: Window,
    at: usize,
}

// Nothing where the run is over, of which standard error says why.
fn answer_next(
    rt: &HostRuntime,
    index: u64,
    input: &mut [u8],
    output: &mut [u8],
    turn: Turn,
    lent: &mut Lent,
) -> Option<Turn>
    requires { (turn.window.end ≤ length input.old) × (turn.at ≤ length output.old) }
    ensures { IfSome result (λ next. (next.window.end ≤ length input.new) × (next.at ≤ length output.new)) }
{
    // Answers are written when there might be no room for another, and before a read that may have to wait for whoever reads them.
    let at = if is_at_hand(input, turn.window) {
        made_room(rt, output, turn.at, ANSWER, UNWRITTEN).ok()?
    } else {
        flush(rt, &output[..turn.at], UNWRITTEN).ok()?;
        0
    };
    match run_next(
        &streams::input(rt),
        input,
        turn.window,
        lent,
        &mut output[at..],
    ) {
        Ok(done) => Some(Turn {
            window: done.rest,
            at: at + done.size,
        }),
        Err(wrong) => {
            let _ = flush(rt, &output[..at], UNWRITTEN);
            say_why(rt, b"case", index, wrong);
            None
        }
    }
}

// A proved loop has to end, and nothing says that a stream does: so it counts its cases, to a number that none reaches.
fn answer_all(rt: &HostRuntime, input: &mut [u8], output: &mut [u8], lent: &mut Lent) {
    let mut turn = Turn {
        window: Window { start: 0, end: 0 },
        at: 0,
    };
    for index in 0..u64::MAX {
        match answer_next(rt, index, input, output, turn, lent) {
            Some(next) => turn = next,
            None => break,
        }
    }
}

fn main(rt: HostRuntime) {
    let mut input = [0u8; INPUT];
    let mut output = [0u8; OUTPUT];
    let mut code = [0u8; PAGE];
    let mut locations = [0u32; TABLE];
    let mut fields = [0u32; TABLE];
    let mut targets = [0u32; TABLE];
    let mut kinds = [0u32; TABLE];
    let mut makers = [0u32; TABLE];
    let mut lent = Lent {
        code: &mut code,
        locations: &mut locations,
        fields: &mut fields,
        targets: &mut targets,
        kinds: &mut kinds,
        makers: &mut makers,
    };
    lent.mark();
    answer_all(&rt, &mut input, &mut output, &mut lent);
}
