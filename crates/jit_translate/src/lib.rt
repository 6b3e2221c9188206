// What a user calls, over the layers below: `translate`, and its two halves, `decide` and `write_page`.

#![tactic(auto)]

pub mod translate;
