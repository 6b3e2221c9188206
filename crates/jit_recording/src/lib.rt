// What every handler goes through: the jump tables and how a jump is recorded in them, the register map, what the mode changes, and how a
// constant is loaded.

#![tactic(auto)]

pub mod constant;
pub mod emission;
pub mod mode;
pub mod register;
