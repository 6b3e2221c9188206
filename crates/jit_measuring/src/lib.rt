// What is settled before a byte is written: the quick check, and behind it the measuring pass, for a page in which the program's room is in
// doubt or a jump's target is bad.

#![tactic(auto)]

pub mod fits;
pub mod measure;
