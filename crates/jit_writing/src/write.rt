// The writing pass, over what is lent: each slot's code, its location, and its jump.
ghost use Rattle.std.specs.Prelude.{◌≡◌, ◌+◌, ◌≤◌, ◌<◌, ◌^◌, length};
ghost use Rattle.jit.specs.Lent.{filter_in, filter_of};
ghost use Rattle.jit.specs.Passes.{WithinLimits};
ghost use Rattle.jit.specs.Translation.{entries, slots_wide};
ghost use Rattle.jit_walk.specs.Numbered.{is_wide};
ghost use Rattle.jit_writing.specs.Lent.{Fitting, Put, Writes};

use crate::slot;
use base::{Position, Slot};
use ebpf::constants::INSN_SIZE;
use ebpf::kind;
use ebpf::kind::Opcodes;
use jit::Mode;
use jit_recording::emission::JumpTables;

// A slot's location entries: its place, and 0 for a second half, which LD_DW_IMM alone has. The answer is the next slot.
fn put_slot(locations: &mut [u32], slot: Slot, at: Position, number: u8) -> Slot
    requires { (slot.number + slots_wide (is_wide number) ≤ length locations.old) × ((at.offset < 2 ^ 32) × (slot.number < 2 ^ 16)) }
    ensures { Put locations slot result (entries at.offset (is_wide number)) × (result.number ≡ slot.number + slots_wide (is_wide number)) }
{
    let first = slot.number;
    locations[first] = at.offset as u32;
    if number == kind::KIND_LD_DW_IMM {
        locations[first + 1] = 0;
        return Slot { number: first + 2 };
    }
    Slot { number: first + 1 }
}

// The slots of a program that is accepted, the first one's code at `start`, their jumps behind the prologue's, which is the tables' entry 0. The
// answer is where they end.
pub fn write_slots(
    opcodes: &Opcodes,
    prog: &[u8],
    mode: Mode,
    ids: &[u32],
    addresses: &[u64],
    page: usize,
    start: Position,
    code: &mut [u8],
    locations: &mut [u32],
    jumps: &mut JumpTables<'_>,
) -> Position
    requires limits { WithinLimits prog ids addresses page start }
    requires fitting { Fitting (filter_in prog mode ids addresses) page start code locations jumps }
    ensures { Writes (filter_of prog mode ids addresses) page start code locations jumps result }
{
    jumps.count = 1;
    let mut next = Slot { number: 0 };
    let mut at = start;
    // A step is as wide as its slot, one or two (`put_slot` says which), so no range and no `chunks` counts them.
    while INSN_SIZE * next.number < prog.len() {
        let opc = prog[INSN_SIZE * next.number];
        let number = opcodes.number_of(opc);
        let end = slot::emit_slot(
            code, at, jumps, mode, number, next, opc, prog, ids, addresses,
        );
        next = put_slot(locations, next, at, number);
        at = end;
    }
    at
}
