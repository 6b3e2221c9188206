// The arithmetic of an interpreter of RFC 9669: code that computes what specs/Values.antt of ebpf_meaning defines.

#![tactic(auto)]

pub mod arithmetic;
pub mod condition;
pub mod operand;
pub mod product;
pub mod shift;
pub mod swap;
