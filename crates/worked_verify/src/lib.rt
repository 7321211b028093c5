#![tactic(auto)]

// No code: images verified by hand, as theorems of proofs/.
