// What a slot does, by RFC 9669: arithmetic, moves, byte swaps and jumps, on the eleven registers. Definitions (specs/) and theorems
// (proofs/) only.

#![tactic(auto)]
