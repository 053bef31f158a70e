// One operation, described in terms that no instruction set owns (pipeline/op.rs): its texts and names, the checks on them, and the next address.
#![tactic(auto)]

use capability::PipelineInstructionClass;

// A text in an array.
mod chars;
// The methods of an operation.
mod operation;
// The first word of a text.
pub mod word;

pub use chars::{Chars, Name, Text, printable};
pub use word::mnemonic;

// An operation as the caller hands it over. Counts over 8 and 4 are refused.
#[derive(Clone, Copy)]
pub struct PipelineOp {
    pub address: u64,
    // Encoded length in bytes. Ignored where the machine has a fixed one.
    pub length: u64,
    pub class: PipelineInstructionClass,
    // Whether it can change the next fetch address.
    pub branch: bool,
    pub atomic: bool,
    pub disassembly: Text,
    pub fault: Option<Text>,
    // The result register's name, to display.
    pub destination: Option<Name>,
    pub sources: [Name; 8],
    pub sources_len: u8,
    pub writes: [Name; 4],
    pub writes_len: u8,
    pub payload: u64,
}
