// The translator that also writes the page's map, as C sees it: the static library that `rt lib` writes here. It stands apart from
// crates/ndakoleem so that a loader that wants no map links nothing of it, and its translation costs what it did: in one library the two would
// share the functions below them, and the compiler inlines a long function where it has one caller only. As there, it only hands on what it
// is given and puts the answer into a struct of numbers, since a Result does not pass the boundary. The declarations for C are
// include/ndakoleem.h.

#![tactic(auto)]

ghost use Rattle.jit_translate.specs.Lent.{asked, flagged, in_mode};
ghost use Rattle.ndakoleem_map.specs.Lent.{ExportedMap};

use jit::{Flags, Mode};
use jit_mapping::mapped::translate_mapped;

// Accepted: number 0, slot 0, the code's length, the count of jumps and the length of the map's text. Refused: the number and slot of
// docs/REFUSALS.md, and 0 for the other three.
#[repr(C)]
#[derive(Clone, Copy)]
pub struct Mapped {
    pub number: u8,
    pub slot: usize,
    pub length: usize,
    pub jumps: usize,
    pub text: usize,
}

// The five numbers of `translate_mapped`'s answer; what is lent is left as `translate_mapped` leaves it (specs/ExportedMap.antt). The number in
// the name rises with every change of the parameters: a caller that was built for others does not link.
#[unsafe(no_mangle)]
pub extern "C" fn ndakoleem_translate_mapped_1(
    program: &[u8],
    use_mbuff: bool,
    update_data_ptr: bool,
    standard: bool,
    compact: bool,
    ids: &[u32],
    addresses: &[u64],
    code: &mut [u8],
    locations: &mut [u32],
    fields: &mut [u32],
    targets: &mut [u32],
    kinds: &mut [u32],
    makers: &mut [u32],
    base: u64,
    text: &mut [u8],
) -> Mapped
    ensures { ExportedMap (asked program (flagged use_mbuff update_data_ptr) (in_mode «standard» «compact») ids addresses
        code locations fields targets kinds makers) base code locations fields targets kinds makers text result }
{
    let flags = Flags {
        use_mbuff,
        update_data_ptr,
    };
    let mode = Mode { standard, compact };
    match translate_mapped(
        program, flags, mode, ids, addresses, code, locations, fields, targets, kinds, makers,
        base, text,
    ) {
        Ok(accepted) => Mapped {
            number: 0,
            slot: 0,
            length: accepted.length,
            jumps: accepted.jumps,
            text: accepted.text,
        },
        Err(refusal) => Mapped {
            number: jit_mapping::number_of(refusal),
            slot: jit_mapping::slot_of(refusal),
            length: 0,
            jumps: 0,
            text: 0,
        },
    }
}
