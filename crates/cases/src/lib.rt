// The bench cases: the table is in specs/, its proof in proofs/. There is no code here.
#![tactic(auto)]

pub fn nothing() {}
