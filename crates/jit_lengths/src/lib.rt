// How long each slot's code is, found without writing it: what the measuring pass adds up.

#![tactic(auto)]

pub mod instruction;
pub mod slot;
