// What the bytecode and the processors share: the widths of an operation, the sizes of an access, and the two kinds of
// number that must never be taken for each other.

#![tactic(auto)]

// The number of a slot of the program. It indexes the location table.
#[derive(Clone, Copy)]
pub struct Slot {
    pub number: usize,
}

// A place in the page: an offset from its first byte. It indexes the code.
#[derive(Clone, Copy)]
pub struct Position {
    pub offset: usize,
}

// How much of a register an operation works on.
#[derive(Clone, Copy)]
pub enum Width {
    W32,
    W64,
}

// How many bytes a load or a store moves: 1, 2, 4 or 8.
#[derive(Clone, Copy)]
pub enum Size {
    S8,
    S16,
    S32,
    S64,
}
