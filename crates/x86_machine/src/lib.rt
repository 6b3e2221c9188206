// The x86-64 processor as a model: what each instruction that the translator writes does, and a run of them. Definitions (specs/) and
// theorems (proofs/) only.

#![tactic(auto)]
