// A case, run: what it asks for is lent, the answer is put together, and what was lent is looked over and marked again.
ghost use Rattle.std.specs.Prelude.{◌≡◌, true, ◌≤◌, length, IfOk};
ghost use Rattle.cases_run.specs.Marks.{mark_at, table_mark_at, Marked};
ghost use Rattle.cases_run.specs.Lent.{Holds};

use crate::marks::{is_kept, mark_all};
use cases_bytes::answer::{Translation, put_accepted, put_refused};
use cases_bytes::limits::{CASE, HELPERS};
use cases_bytes::parts::{Case, take_apart};
use cases_bytes::stream::{Window, next_record};
use cases_problems::Problem;
use jit::Refusal;
use jit_translate::translate::{Accepted, translate};
use streams::Source;

// What is lent, whole: it is marked before a case, and marked again afterwards where there is no problem.
#[derive(Drop)]
pub struct Lent<'a> {
    pub code: &'a mut [u8],
    pub locations: &'a mut [u32],
    pub fields: &'a mut [u32],
    pub targets: &'a mut [u32],
    pub kinds: &'a mut [u32],
    pub makers: &'a mut [u32],
}

// What the translator answers that it wrote: bytes of code, locations, and jumps.
#[derive(Clone, Copy)]
struct Written {
    code: usize,
    locations: usize,
    jumps: usize,
}

const NOTHING: Written = Written {
    code: 0,
    locations: 0,
    jumps: 0,
};

impl Lent<'_> {
    // All of it, before the first case.
    pub fn mark(&mut self)
        ensures marked { (Marked mark_at 0 self.new.code.now) × (Marked table_mark_at 0 self.new.locations.now) }
        ensures marked_2 { (Marked table_mark_at 0 self.new.fields.now) × (Marked table_mark_at 0 self.new.targets.now) }
        ensures marked_3 { (Marked table_mark_at 0 self.new.kinds.now) × (Marked table_mark_at 0 self.new.makers.now) }
    {
        mark_all(self.code);
        mark_all(self.locations);
        mark_all(self.fields);
        mark_all(self.targets);
        mark_all(self.kinds);
        mark_all(self.makers);
    }

    // Whether there is room for all that was written.
    fn holds(&self, written: Written) -> bool
        ensures { result ≡ true → Holds self.now written.code written.locations written.jumps }
    {
        written.code <= self.code.len()
            && written.locations <= self.locations.len()
            && written.jumps <= self.fields.len()
            && written.jumps <= self.targets.len()
            && written.jumps <= self.kinds.len()
            && written.jumps <= self.makers.len()
    }

    // What has changed behind what was written.
    fn looked_over(&self, written: Written) -> Result<(), Problem> {
        if !is_kept(self.code, written.code) {
            return Err(Problem::PageChanged);
        }
        if !is_kept(self.locations, written.locations) {
            return Err(Problem::LocationsChanged);
        }
        if !is_kept(self.fields, written.jumps) {
            return Err(Problem::FieldsChanged);
        }
        if !is_kept(self.targets, written.jumps) {
            return Err(Problem::TargetsChanged);
        }
        if !is_kept(self.kinds, written.jumps) {
            return Err(Problem::KindsChanged);
        }
        if !is_kept(self.makers, written.jumps) {
            return Err(Problem::MakersChanged);
        }
        Ok(())
    }

    // The answer; of the kinds and makers it has `shown`.
    fn put(&self, written: Written, shown: usize, out: &mut [u8]) -> usize
        requires { (shown ≤ written.jumps) × Holds self.now written.code written.locations written.jumps }
        ensures { result ≤ length out.new }
    {
        put_accepted(
            out,
            Translation {
                code: &self.code[..written.code],
                locations: &self.locations[..written.locations],
                fields: &self.fields[..written.jumps],
                targets: &self.targets[..written.jumps],
                kinds: &self.kinds[..shown],
                makers: &self.makers[..shown],
            },
        )
    }

    fn mark_written(&mut self, written: Written)
        requires { Holds self.old written.code written.locations written.jumps }
    {
        mark_all(&mut self.code[..written.code]);
        mark_all(&mut self.locations[..written.locations]);
        mark_all(&mut self.fields[..written.jumps]);
        mark_all(&mut self.targets[..written.jumps]);
        mark_all(&mut self.kinds[..written.jumps]);
        mark_all(&mut self.makers[..written.jumps]);
    }
}

// How many bytes an answer has that was put; none where there was no room for it.
fn reply_of(size: usize) -> Result<usize, Problem>
    ensures { IfOk result (λ bytes. bytes ≡ size) }
{
    if size == 0 {
        return Err(Problem::NoRoom);
    }
    Ok(size)
}

fn refused(refusal: Refusal, lent: &Lent, out: &mut [u8]) -> Result<usize, Problem>
    ensures { IfOk result (λ size. size ≤ length out.new) }
{
    lent.looked_over(NOTHING)?;
    reply_of(put_refused(out, refusal))
}

// How many kinds and makers an answer shows: those of all jumps, or none.
fn shown_of(named: bool, jumps: usize) -> usize
    ensures { result ≤ jumps }
{
    if named { jumps } else { 0 }
}

fn accepted(
    written: Written,
    named: bool,
    lent: &mut Lent,
    out: &mut [u8],
) -> Result<usize, Problem>
    ensures { IfOk result (λ size. size ≤ length out.new) }
{
    if !lent.holds(written) {
        return Err(Problem::WrongLengths);
    }
    lent.looked_over(written)?;
    let size = lent.put(written, shown_of(named, written.jumps), out);
    lent.mark_written(written);
    reply_of(size)
}

// How many locations an accepted program has: one for each slot, and one behind the last.
fn ends_of(program: &[u8]) -> usize {
    program.len() / 8 + 1
}

fn run_lent(
    program: &[u8],
    case: Case,
    ids: &[u32],
    addresses: &[u64],
    lent: &mut Lent,
    out: &mut [u8],
) -> Result<usize, Problem>
    ensures { IfOk result (λ size. size ≤ length out.new) }
{
    match translate(
        program,
        case.flags,
        case.mode,
        ids,
        addresses,
        lent.code,
        lent.locations,
        lent.fields,
        lent.targets,
        lent.kinds,
        lent.makers,
    ) {
        Ok(Accepted { length, jumps }) => {
            let written = Written {
                code: length,
                locations: ends_of(program),
                jumps,
            };
            accepted(written, case.named, lent, out)
        }
        Err(refusal) => refused(refusal, lent, out),
    }
}

// Of a longer page or table than there is the whole is lent, which the translator cannot tell. The slices come one by one, since the check makes
// no proof of a `Lent` that is cut out of another.
fn run_case(
    program: &[u8],
    case: Case,
    ids: &[u32],
    addresses: &[u64],
    code: &mut [u8],
    locations: &mut [u32],
    fields: &mut [u32],
    targets: &mut [u32],
    kinds: &mut [u32],
    makers: &mut [u32],
    out: &mut [u8],
) -> Result<usize, Problem>
    ensures { IfOk result (λ size. size ≤ length out.new) }
{
    let page = case.code.min(code.len());
    let ends = case.locations.min(locations.len());
    let places = case.fields.min(fields.len());
    let goals = case.targets.min(targets.len());
    let sorts = case.kinds.min(kinds.len());
    let sources = case.makers.min(makers.len());
    let mut lent = Lent {
        code: &mut code[..page],
        locations: &mut locations[..ends],
        fields: &mut fields[..places],
        targets: &mut targets[..goals],
        kinds: &mut kinds[..sorts],
        makers: &mut makers[..sources],
    };
    run_lent(program, case, ids, addresses, &mut lent, out)
}

// The case in a record's body, taken apart and run.
fn run_body(body: &[u8], lent: &mut Lent, out: &mut [u8]) -> Result<usize, Problem>
    ensures { IfOk result (λ size. size ≤ length out.new) }
{
    let mut ids = [0u32; HELPERS];
    let mut addresses = [0u64; HELPERS];
    let case = take_apart(body, &mut ids, &mut addresses)?;
    run_case(
        &body[case.program..],
        case,
        &ids[..case.ids],
        &addresses[..case.addresses],
        lent.code,
        lent.locations,
        lent.fields,
        lent.targets,
        lent.kinds,
        lent.makers,
        out,
    )
}

// A stream's next case, read and run: the window behind it and how many bytes its answer is.
#[derive(Clone, Copy)]
pub struct Done {
    pub rest: Window,
    pub size: usize,
}

// The answer is put at the start of `out`. After a problem the stream is not to be gone on with.
pub fn run_next(
    from: &Source,
    input: &mut [u8],
    window: Window,
    lent: &mut Lent,
    out: &mut [u8],
) -> Result<Done, Problem>
    requires { window.end ≤ length input.old }
    ensures { IfOk result (λ done. (done.rest.end ≤ length input.new) × (done.size ≤ length out.new)) }
{
    let record = next_record(from, input, window, CASE)?;
    let rest = record.rest;
    let size = run_body(&input[record.at..rest.start], lent, out)?;
    Ok(Done { rest, size })
}
