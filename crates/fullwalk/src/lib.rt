#![tactic(auto)]

// No code: what a walk of all addresses hands out, carried on to its end.
