// Cases of the translator, run: a case is taken apart, what it asks for is lent, its answer is put together, and what was lent is looked
// over afterwards. `cases_bytes` has the bytes of cases and answers, and program `answers` the stream from one to the other.

#![tactic(auto)]

pub mod marks;
pub mod run;
