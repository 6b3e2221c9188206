// Code for any processor: instructions whose jumps carry destinations, their bytes, a page of them with its tables, where its jumps land, and
// whose each of its bytes is. Definitions (specs/) and theorems (proofs/), and the name of a page's piece; crates x86 and jit are its instances.

#![tactic(auto)]

use base::Slot;

// What a byte of a page can be of.
#[derive(Clone, Copy)]
pub enum Piece {
    Prologue,
    Slot(Slot),
    Epilogue,
}
