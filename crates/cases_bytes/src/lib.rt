// Cases of the translator and answers to them, as bytes: records of a stream, read one at a time, a case taken apart, an answer put
// together. Nothing here translates: `cases_run` runs a case, and the programs that read bytecode or answers need no more than this.

#![tactic(auto)]

pub mod answer;
pub mod limits;
pub mod numbers;
pub mod output;
pub mod parts;
pub mod stream;
pub mod turn;
