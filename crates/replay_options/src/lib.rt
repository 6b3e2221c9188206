// The words that a replay is asked for with. It shares --page, --helper and --help with the programs of listing_options, whose functions read
// those, and has words of its own: two names, and --write.

#![tactic(auto)]

pub mod help;
pub mod options;
pub mod words;
