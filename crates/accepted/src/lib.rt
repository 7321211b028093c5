#![tactic(auto)]

// No code: what holds of an image that verification accepts, and of the lent scratch.
