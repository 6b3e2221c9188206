// Demand 3: what the code does when it is read and run. Definitions (specs/) and theorems (proofs/) only.

#![tactic(auto)]
