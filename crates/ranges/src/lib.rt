#![tactic(auto)]

// No code: what a walk of a range hands out, and what its options leave out; demand 3 of the handle that opening gave.
