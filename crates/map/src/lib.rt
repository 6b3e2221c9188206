// The map of a page for perf, line by line: what it says, and how perf reads it, is in specs/.

#![tactic(auto)]

pub mod line;
