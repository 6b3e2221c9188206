// What the translator is asked and what it answers: the flags, the mode, and every reason to refuse. What it has to give is in specs/.

#![tactic(auto)]

use base::Slot;
use ebpf::constants::PROG_MAX_INSNS;

// The limits, as specs/Limits.antt has them; the sizes of code, as specs/Room.antt does.
// The code buffer, in bytes.
pub const SHORTEST_PAGE: usize = 4096;

pub const LONGEST_PAGE: usize = 131072;
// The program, in slots and in bytes.
pub const MOST_SLOTS: usize = 2048;

pub const LONGEST_PROGRAM: usize = 8 * MOST_SLOTS;

pub const MOST_HELPERS: usize = 256;
// The target of a jump to the exit: TARGET_PC_EXIT of rbpf, one more than a program may have slots there.
pub const ANCHOR: u32 = PROG_MAX_INSNS as u32 + 1;
// What the table of kinds says of a jump: it is taken on a condition, it is always taken, it is a call within the program.
pub const CONDITIONAL: u32 = 1;

pub const PLAIN: u32 = 2;

pub const LOCAL_CALL: u32 = 3;
// The most code that a slot can have: one of most kinds, and one that multiplies, divides or calls.
pub const SHORT_SLOT: usize = 14;

pub const LONG_SLOT: usize = 42;

pub const EPILOGUE_SIZE: usize = 16;

// `use_mbuff` and `update_data_ptr` of the Rust: which of the three prologues is written.
#[derive(Clone, Copy)]
pub struct Flags {
    pub use_mbuff: bool,
    pub update_data_ptr: bool,
}

// Which code the slots get: the Rust's, unless one of these is set. With `standard` it is that of RFC 9669 where the Rust parts from it
// (specs/Slots.antt); with `compact` constants of 0 to 4,294,967,295 take fewer bytes (specs/Constants.antt).
#[derive(Clone, Copy)]
pub struct Mode {
    pub standard: bool,
    pub compact: bool,
}

// Why a program is not translated, and at which slot. The number of each is in specs/Refusals.antt.
#[derive(Clone, Copy)]
pub enum Refusal {
    // The code buffer is below SHORTEST_PAGE bytes, or above LONGEST_PAGE.
    PageTooShort,
    PageTooLong,
    // The program is above LONGEST_PROGRAM bytes.
    ProgramTooLong,
    // A table has fewer entries than the program has slots, and one.
    TableTooShort,
    // The helper lists differ in length, exceed MOST_HELPERS, or hold an id twice.
    BadHelpers,
    // The slot's eight bytes, or a wide load's second eight, are not all there.
    Torn(Slot),
    // dst or src is above 10.
    BadRegister(Slot),
    UnknownOpcode(Slot),
    // ST_W_XADD, ST_DW_XADD, TAIL_CALL.
    Unimplemented(Slot),
    // BE, and in standard mode LE, with an immediate other than 16, 32, 64.
    BadSwap(Slot),
    // A helper call whose id is not listed.
    UnknownHelper(Slot),
    // CALL with src 2 to 10.
    BadCall(Slot),
    // The slot's code, or the epilogue (slot n), runs past the buffer.
    NoRoom(Slot),
    // The first jump whose target is neither 0 to n nor the exit.
    BadTarget(Slot),
}
