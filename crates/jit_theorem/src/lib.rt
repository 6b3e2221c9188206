// The theorem about `translate` on one page (specs/Theorem.antt), and its proof. There is no code here.

#![tactic(auto)]
