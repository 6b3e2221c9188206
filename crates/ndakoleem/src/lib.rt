// The translator and the sentences as C sees them: the static library that `rt lib` writes here. It only hands on what it is given and
// puts the answer into a struct of four numbers, since a Result does not pass the boundary. The declarations for C are include/ndakoleem.h.

#![tactic(auto)]

ghost use Rattle.jit_translate.specs.Lent.{asked, flagged, in_mode};
ghost use Rattle.ndakoleem.specs.Lent.{Exported};
ghost use Rattle.refusals_text.specs.Lent.{Sentence};

use jit::{Flags, Mode};
use jit_translate::translate::translate;

// Accepted: number 0, slot 0, the code's length and the count of jumps. Refused: the number and slot of docs/REFUSALS.md, and 0 for the other two.
#[repr(C)]
#[derive(Clone, Copy)]
pub struct Translation {
    pub number: u8,
    pub slot: usize,
    pub length: usize,
    pub jumps: usize,
}

// The four numbers of `translate`'s answer; what is lent is left as `translate` leaves it (specs/Exported.antt). The number in the name rises
// with every change of the parameters: a caller that was built for others does not link.
#[unsafe(no_mangle)]
pub extern "C" fn ndakoleem_translate_4(
    program: &[u8],
    use_mbuff: bool,
    update_data_ptr: bool,
    standard: bool,
    compact: bool,
    ids: &[u32],
    addresses: &[u64],
    code: &mut [u8],
    locations: &mut [u32],
    fields: &mut [u32],
    targets: &mut [u32],
    kinds: &mut [u32],
    makers: &mut [u32],
) -> Translation
    ensures { Exported (asked program (flagged use_mbuff update_data_ptr) (in_mode «standard» «compact») ids addresses
        code locations fields targets kinds makers) code locations fields targets kinds makers result }
{
    let flags = Flags {
        use_mbuff,
        update_data_ptr,
    };
    let mode = Mode { standard, compact };
    match translate(
        program, flags, mode, ids, addresses, code, locations, fields, targets, kinds, makers,
    ) {
        Ok(accepted) => Translation {
            number: 0,
            slot: 0,
            length: accepted.length,
            jumps: accepted.jumps,
        },
        Err(refusal) => Translation {
            number: refusals::number_of(refusal),
            slot: refusals::slot_of(refusal),
            length: 0,
            jumps: 0,
        },
    }
}

// A refusal in words: what `sentence` says of the program, the number and the slot, at the start of `out`, cut where it does not fit; the
// header's NDAKOLEEM_SENTENCE_ENOUGH is the `sentence_enough` of `Sentence`, in which it stands whole.
#[unsafe(no_mangle)]
pub extern "C" fn ndakoleem_sentence(
    program: &[u8],
    number: u8,
    slot: usize,
    out: &mut [u8],
) -> usize
    ensures { Sentence program number slot out result }
{
    refusals_text::sentence(program, number, slot, out)
}
