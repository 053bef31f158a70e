// The lent cell memory shows the Rust's timeline: see specs/ and proofs/. There is no code here.
#![tactic(auto)]

pub fn nothing() {}
