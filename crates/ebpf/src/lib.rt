// The bytecode of RFC 9669 as rbpf reads it: the constants of its src/ebpf.rs, a slot taken apart, and what kind of slot an opcode makes.

#![tactic(auto)]

pub mod constants;
pub mod insn;
pub mod kind;
