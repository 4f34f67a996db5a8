// No code: the fewest paths of an order of strings (specs/), and the proof that no order has fewer and that one has as many (proofs/).
#![tactic(auto)]
