// The handlers of multiplication, division and modulo: the longest code of all, with the guard of a divisor.

#![tactic(auto)]

pub mod muldivmod;
