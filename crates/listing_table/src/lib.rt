// What becomes of a program: its slots, the machine instructions of each as the proved reader reads them from the translated bytes, and
// where it jumps; or its slots up to the one that is refused, and the reason. All on standard output, but for the reason, which goes where
// the caller says.

#![tactic(auto)]

ghost use Rattle.jit_translate.specs.Lent.{asked, Translated, Named};

mod table;

use jit::{EPILOGUE_SIZE, Flags, Mode, Refusal};
use jit_translate::translate::{Accepted, translate};
use listing_lines::LINE;
use streams::Sink;
use table::{Page, Totals};

// Refusals below 6 are of no slot.
fn list_until(rt: &HostRuntime, prog: &[u8], number: u8, slot: usize) {
    if number < 6 {
        return;
    }
    listing_lines::list_slots(rt, prog, slot);
}

fn list_refused(rt: &HostRuntime, prog: &[u8], refusal: Refusal, reason: &Sink) {
    let mut line = [0u8; LINE];
    let number = refusals::number_of(refusal);
    let slot = refusals::slot_of(refusal);
    list_until(rt, prog, number, slot);
    let end = refusals_text::sentence(prog, number, slot, &mut line);
    listing_lines::write_line(reason, &mut line, end);
}

// The program, translated into what is lent, and the table of it. The answer, and what is left in what is lent, are the translator's; a
// refusal's sentence goes to `reason`. The parameters stay those of `translate`, which `asked` of the clauses names one by one.
pub fn list_filter(
    rt: &HostRuntime,
    prog: &[u8],
    flags: Flags,
    mode: Mode,
    ids: &[u32],
    addresses: &[u64],
    page: &mut [u8],
    locations: &mut [u32],
    fields: &mut [u32],
    targets: &mut [u32],
    kinds: &mut [u32],
    makers: &mut [u32],
    reason: &Sink,
) -> Result<Accepted, Refusal>
    ensures translated { Translated (asked prog flags mode ids addresses page locations fields targets kinds makers) page locations fields targets result }
    ensures named { Named (asked prog flags mode ids addresses page locations fields targets kinds makers) kinds makers }
{
    let answer = translate(
        prog, flags, mode, ids, addresses, page, locations, fields, targets, kinds, makers,
    );
    match answer {
        Ok(Accepted { length, jumps }) => {
            let totals = Totals {
                slots: prog.len() / 8,
                length,
                jumps,
                page: page.len(),
                exit: length.saturating_sub(EPILOGUE_SIZE),
            };
            let listed = Page {
                code: page,
                locations,
                targets,
                kinds,
                makers,
                totals,
            };
            listed.list(rt, prog);
        }
        Err(refusal) => list_refused(rt, prog, refusal, reason),
    }
    answer
}
