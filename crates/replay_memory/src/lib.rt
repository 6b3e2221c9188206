// The memory of a run: where an access lies (place), what stands there (load), and what is put there (store), and each of the two last at an
// address (access). What they compute is said in replay's specs/Memory.antt. All of it is straight code, since a run does it slot by slot.

#![tactic(auto)]

pub mod access;
pub mod load;
pub mod place;
pub mod store;
