// Whether a program is translated: refusals 1 to 5 from the lengths alone, the others from the slots. Nothing is written here.

#![tactic(auto)]

pub mod judge;
pub mod sizes;
