// An instruction as text in Intel syntax, spelt as objdump -M intel spells it: its mnemonic here, the texts of its operands from
// `x86_operands`. specs/Intel.antt says each text; docs/LISTING.md lists the rules.

#![tactic(auto)]

pub mod instruction;
pub mod mnemonic;
