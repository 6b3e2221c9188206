// The writing pass over what is lent: the frame round the slots, one slot by its number in the opcode table, and the walk over all.

#![tactic(auto)]

pub mod frame;
pub mod slot;
pub mod write;
