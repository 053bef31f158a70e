// Theorems over the contracts of the engine: see specs/ and proofs/. There is no code here.
#![tactic(auto)]

pub fn nothing() {}
