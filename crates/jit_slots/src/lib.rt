// The handlers: what each kind of slot writes. One file for each class of the bytecode; division has a crate of its own.

#![tactic(auto)]

pub mod alu;
pub mod jump;
pub mod load;
