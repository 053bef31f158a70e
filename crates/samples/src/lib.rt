// Lists of calls with what the Rust answered to them: see specs/. There is no code here.
#![tactic(auto)]

pub fn nothing() {}
