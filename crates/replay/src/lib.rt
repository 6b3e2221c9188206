// What a filter would have kept: the bytecode itself, run packet by packet. What a run is and what is reported of it is said in specs/; here is
// what the answers are made of.

#![tactic(auto)]

ghost use Rattle.replay.specs.declared.Refusal.TheVariants.{Translation};
ghost use Rattle.std.specs.Prelude.{◌≡◌};

use base::Slot;
use jit::Refusal as Untranslated;

// The addresses of a run's memory, the stack's size and the most slots that a run takes, as specs/Memory.antt and specs/Run.antt have them.
pub const PACKET: u64 = 0x1000_0000;

pub const STACK: u64 = 0x2000_0000;

pub const STACK_SIZE: usize = 512;

pub const STEP_LIMIT: u32 = 65536;

// Where an access lies that one area holds: so many bytes behind the start of the packet, or of the stack.
#[derive(Clone, Copy)]
pub enum Place {
    Packet(usize),
    Stack(usize),
}

// How a run ends: EXIT, with what r0 then is; or it is stopped, by the step limit, by an access that lies in neither the packet nor the stack,
// or where there is no slot to run.
#[derive(Clone, Copy)]
pub enum Ended {
    Exit(u64),
    StepLimit,
    Access,
    NoSlot,
}

// Why a filter is not run over a capture. The number of each is in specs/Refusals.antt.
#[derive(Clone, Copy)]
pub enum Refusal {
    // It is not translated in standard mode.
    Translation(Untranslated),
    // The capture does not begin with a header.
    NotPcap,
    // A record that is cut short, or a packet above LONGEST_PACKET bytes.
    BadRecord,
    // LD_ABS, LD_IND or CALL.
    NotModelled(Slot),
}

impl From<Untranslated> for Refusal {
    ghost from_gives = { λ untranslated refusal. refusal ≡ Translation untranslated };

    fn from(untranslated: Untranslated) -> Refusal {
        Refusal::Translation(untranslated)
    }
}

// How many packets there were, and how the run of each ended.
#[derive(Clone, Copy, Default)]
pub struct Totals {
    pub packets: u64,
    pub kept: u64,
    pub dropped: u64,
    pub step_limit: u64,
    pub access: u64,
    pub no_slot: u64,
}
