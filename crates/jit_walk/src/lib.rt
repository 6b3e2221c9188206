// What the passes over the slots share: what a slot takes from elsewhere (src/operand.rt), its code by its entry in the opcode table
// (specs/Numbered.antt), and what holds between two slots (proofs/Sofar.antt).

#![tactic(auto)]

pub mod operand;
