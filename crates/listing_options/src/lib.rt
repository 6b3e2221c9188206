// What the programs that are asked with words share: the options that say how a filter is translated, the reading of its bytes, the lines of
// the help that explain the options, and the base address of a page.

#![tactic(auto)]

pub mod filter;
pub mod help;
pub mod options;
pub mod place;
