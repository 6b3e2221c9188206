// What a run does at a slot: its fields, one by one as they are needed (fetch); arithmetic, moves and swaps (arithmetic); jumps (jump); loads
// and stores (memory); and by the class of its code which of these it is (step). A run does this slot by slot, so all of it is straight code,
// and what LLVM makes of it is counted (docs/PERFORMANCE.md). Each function is lent of registers, stack and packet what it works on: one struct of
// the three would have each contract (`Computed`, `Loads`, `Stores`) say of the rest that it stays.

#![tactic(auto)]

pub mod arithmetic;
pub mod fetch;
pub mod jump;
pub mod memory;
pub mod step;
