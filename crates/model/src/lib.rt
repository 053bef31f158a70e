// The engine as definitions: see specs/. There is no code here.
#![tactic(auto)]

pub fn nothing() {}
