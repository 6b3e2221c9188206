// The instruction reader: bytes of a page taken apart into instructions, as the definition in crates/x86/specs/Decode.antt says. Here
// are the opcodes; what stands around them is read by x86_encoding and x86_forms.

#![tactic(auto)]

pub mod decode;
pub mod groups;
