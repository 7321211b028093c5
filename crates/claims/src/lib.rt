#![tactic(auto)]

// No code: what is promised, and cases worked by hand, as theorems.
pub fn nothing() {}
