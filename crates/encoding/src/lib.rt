// A theorem over the byte form of a list of calls: see specs/ and proofs/. There is no code here.
#![tactic(auto)]

pub fn nothing() {}
