// That a slot's code does what RFC 9669 says the slot does. Definitions (specs/) and theorems (proofs/) only.

#![tactic(auto)]
