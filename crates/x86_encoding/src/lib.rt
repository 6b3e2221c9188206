// The parts of an instruction's encoding, read from a page: bytes and numbers, REX and the opcode, ModRM and its displacement. They know
// no instruction: specs/Bytes.antt and specs/Operand.antt say how the definition in crates/x86/specs/Decode.antt goes on with each.

#![tactic(auto)]

pub mod bytes;
pub mod operand;
