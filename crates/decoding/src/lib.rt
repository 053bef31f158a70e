// A machine and calls, read from a list of bytes (docs/CALLS.md). A place is counted from the front of the whole list.
#![tactic(auto)]

// Numbers, flags, classes, roles and texts.
pub mod parts;
// Whether bytes are of their form.
pub mod form;
// An operation.
pub mod operation;
// A machine.
pub mod machine;
// The bytes of a call: how many, and whether they are of their form.
pub mod records;
