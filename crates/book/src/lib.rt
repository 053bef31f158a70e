// Theorems over the model: see specs/ and proofs/. There is no code here.
#![tactic(auto)]

pub fn nothing() {}
