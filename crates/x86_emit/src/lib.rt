// The emitters of the Rust: each writes one instruction at a position of the page and answers the next.

#![tactic(auto)]

pub mod alu;
pub mod bytes;
pub mod jump;
pub mod memory;
