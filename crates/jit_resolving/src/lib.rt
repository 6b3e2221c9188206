// The fields of the recorded jumps, filled in once every slot has its place.

#![tactic(auto)]

pub mod resolve;
