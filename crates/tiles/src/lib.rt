#![tactic(auto)]

// No code: the tree's own networks, and what holds of them.
