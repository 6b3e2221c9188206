// The run of a packet: slot behind slot, to EXIT or to where it is stopped (run), from the state in which each packet starts (packet).

#![tactic(auto)]

pub mod packet;
pub mod run;
