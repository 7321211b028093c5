#![tactic(auto)]

// No code: what holds of every walk that is begun here and carried on.
