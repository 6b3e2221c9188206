// What the emitters of a jump share: where it goes, and the tables that it is recorded in, which the Rust's `JitCompiler` has as one list.
ghost use Rattle.std.specs.Prelude.{◌≡◌, ◌+◌, ◌^◌, ◌<◌};
ghost use Rattle.jit.specs.Slots.{target_of};
ghost use Rattle.jit_recording.specs.Lent.{Recorded, Recordable};

use base::{Position, Slot};

// The four tables that are lent, of which a jump's record is the entry of its number in each, and how many jumps they list. Four and no
// slice of records: C lends them as four (`ndakoleem_translate_4` and its like).
#[derive(Drop)]
pub struct JumpTables<'a> {
    pub fields: &'a mut [u32],
    pub targets: &'a mut [u32],
    pub kinds: &'a mut [u32],
    pub makers: &'a mut [u32],
    pub count: usize,
}

impl JumpTables<'_> {
    // `emit_jump_offset`: the record of the jump whose field ends at `at` goes into the tables, all four entries of it, and they list one
    // jump more.
    pub fn record_jump(&mut self, at: Position, target: u32, kind: u32, maker: Slot)
        requires { Recordable self at maker }
        ensures { Recorded self at target kind maker }
    {
        let entry = self.count;
        self.fields[entry] = (at.offset - 4) as u32;
        self.targets[entry] = target;
        self.kinds[entry] = kind;
        self.makers[entry] = maker.number as u32;
        self.count += 1;
    }
}

// slot + distance + 1, modulo 2 ^ 32.
pub fn target_of(slot: Slot, distance: u32) -> u32
    requires { slot.number < 2 ^ 16 }
    ensures { result ≡ target_of slot.number distance }
{
    std::num::wrapping_add_u32(slot.number as u32 + 1, distance)
}
