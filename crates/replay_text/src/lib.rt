// What people see of a replay: the report of it (report) and a refusal in words (refusal), put into a lent buffer.

#![tactic(auto)]

pub mod refusal;
pub mod report;
