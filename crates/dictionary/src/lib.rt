// No code: the demands on the whole library as theorems (specs/), and their proofs (proofs/).
#![tactic(auto)]
