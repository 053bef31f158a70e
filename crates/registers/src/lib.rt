// Registers by number (pipeline/ooo/registers.rs): their names, and who owes each a value.
#![tactic(auto)]

use op::Name;

// The methods of Operands.
mod numbers;
// The methods of Claims and Waits.
mod producers;
// The methods of RegisterTable.
mod table;

// Names by number, in order of first fetch. The first `known` have been looked at; the first `held` also count those of queued operations. A name's
// bucket hints at the number that it may have.
#[derive(Clone, Copy)]
pub struct RegisterTable {
    pub names: [Name; 256],
    pub hints: [u8; 1024],
    pub known: usize,
    pub held: usize,
}

// An operation's registers by number: reads, then writes.
#[derive(Clone, Copy)]
pub struct Operands {
    pub sources: [u8; 8],
    pub destinations: [u8; 4],
    pub sources_len: u8,
    pub destinations_len: u8,
}

// For each register the unit that owes it its next value.
#[derive(Clone, Copy)]
pub struct Claims {
    pub unit: [Option<u8>; 256],
    pub len: usize,
}

// A register, and the unit that owes it.
#[derive(Clone, Copy)]
pub struct Owed {
    pub register: u8,
    pub unit: u8,
}

// What an operation waits for.
#[derive(Clone, Copy)]
pub struct Waits {
    pub items: [Owed; 8],
    pub len: u8,
}
