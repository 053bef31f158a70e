// Definitions and laws that every other crate cites: see specs/ and proofs/. There is no code here.
#![tactic(auto)]

pub fn nothing() {}
