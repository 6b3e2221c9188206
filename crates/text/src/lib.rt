// Text for people: bytes, numbers and forms put into a lent buffer. What is said with them stands above, in `refusals_text`, `ebpf_text`,
// `x86_text` and `cases_problems`.

#![tactic(auto)]

pub mod digits;
pub mod form;
pub mod number;
pub mod text;
