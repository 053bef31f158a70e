// RegisterTable: names are interned at fetch and known from the look on.
ghost use Rattle.std.specs.Prelude.{◌≡◌, false, map, ◌≤◌, ◌<◌, max, take, length, IfSome};
ghost use Rattle.std.specs.List.{position_from};
ghost use Rattle.laws.specs.Lists.{All};
ghost use Rattle.laws.specs.Means.{Means};
ghost use Rattle.laws.specs.Texts.{same};
ghost use Rattle.model.specs.Registers.{get, name_of};
ghost use Rattle.model.specs.Calls.{bad_info, too_many};
ghost use Rattle.op.specs.Chars.{view_text};
ghost use Rattle.op.specs.View.{view_op};
ghost use Rattle.registers.specs.View.{table_of, view_known, view_held, view_table, Short, NameOk, TableOk};
ghost use Rattle.registers.specs.Hints.{bucket_of, Empty};
ghost use Rattle.registers.specs.Promises.{InternedTo, Lists, FoundTo, NumberedTo, ResolvedTo};

use super::{Operands, RegisterTable};
use op::{Name, PipelineOp};

impl RegisterTable {
    pub fn new() -> RegisterTable
        ensures { Empty result }
    {
        RegisterTable {
            names: [Name::empty(); 256],
            hints: [0; 1024],
            known: 0,
            held: 0,
        }
    }

    // The place of a name among those held: that of its bucket's hint, if the name stands there, or else by a search. A hint may be any number.
    fn place(&self, name: Name) -> Option<usize>
        requires { TableOk self.now }
        ensures is { result ≡ position_from (λ x. same (view_text x) (view_text name)) 0 (take self.now.held self.now.names) }
        ensures few { IfSome result (λ k. k < 256) }
    {
        let hint = self.hints[bucket(name)] as usize;
        if hint < self.held && self.names[hint] == name {
            return Some(hint);
        }
        self.names[..self.held].iter().position(|x| *x == name)
    }

    #[tactic(auto, using(crate::proofs::NameTable::get_position), unfolding(crate::specs::View::view_held))]
    pub fn get(&self, name: Name) -> Option<u8>
        requires { TableOk self.now }
        ensures { result ≡ get (view_held self.now) (view_text name) }
    {
        self.place(name).map(|k| k as u8)
    }

    // "?" where there is none.
    pub fn name(&self, register: usize) -> Name
        requires { TableOk self.now }
        ensures { Means view_text NameOk result (name_of (view_held self.now) register) }
    {
        if register < self.held {
            self.names[register]
        } else {
            Name::from_slice(b"?")
        }
    }

    // None where the name is new and the table is full.
    pub fn intern(&mut self, name: Name) -> Option<u8>
        requires table_ok { TableOk self.old }
        requires name_ok { NameOk name }
        ensures { InternedTo self.old (view_text name) self.new result }
    {
        if let Some(number) = self.get(name) {
            return Some(number);
        }
        if self.held >= 256 {
            return None;
        }
        let number = self.held as u8;
        self.names[self.held] = name;
        self.hints[bucket(name)] = number;
        self.held += 1;
        Some(number)
    }

    // The numbers of a list of names, where the table holds them all.
    fn find_all<const N: usize>(&self, names: &[Name]) -> Option<[u8; N]>
        requires table_ok { TableOk self.now }
        requires few { length names.now ≤ N }
        ensures { FoundTo self.now N (map view_text names.now) result }
    {
        let mut numbers = [0; N];
        for (i, name) in names.iter().enumerate() {
            numbers[i] = self.get(*name)?;
        }
        Some(numbers)
    }

    // Interns a list of names, in order.
    fn intern_all<const N: usize>(&mut self, names: &[Name]) -> Option<[u8; N]>
        requires table_ok { TableOk self.old }
        requires few { length names.now ≤ N }
        requires short { All Short (map view_text names.now) }
        ensures { NumberedTo self.old N (map view_text names.now) self.new result }
    {
        let mut numbers = [0; N];
        for (i, name) in names.iter().enumerate() {
            numbers[i] = self.intern(*name)?;
        }
        Some(numbers)
    }

    // Reads before writes. Mostly every name is held, and the table stays as it is. None, and no change, where the names would be over 256.
    pub fn resolve(&mut self, op: &PipelineOp) -> Option<Operands>
        requires table_ok { TableOk self.old }
        requires op_value { bad_info (view_op op.now).info ≡ false }
        requires op_value_2 { too_many (view_op op.now).info ≡ false }
        ensures { ResolvedTo self.old (view_op op.now).info self.new result }
    {
        let reads = reads(op);
        let writes = writes(op);
        if let (Some(sources), Some(destinations)) = (self.find_all(reads), self.find_all(writes)) {
            return Some(Operands {
                sources,
                destinations,
                sources_len: op.sources_len,
                destinations_len: op.writes_len,
            });
        }
        let mut table = *self;
        let sources = table.intern_all(reads)?;
        let destinations = table.intern_all(writes)?;
        *self = table;
        Some(Operands {
            sources,
            destinations,
            sources_len: op.sources_len,
            destinations_len: op.writes_len,
        })
    }

    // The first `through` of the names held are known.
    pub fn look(&mut self, through: usize)
        requires { TableOk self.old }
        ensures { Means view_table TableOk self.new (table_of (take (max self.old.known through) (view_held self.old)) (view_held self.old)) }
    {
        self.known = self.known.max(through).min(self.held);
    }

    // The queue is empty: only the names known are held.
    pub fn forget(&mut self)
        requires { TableOk self.old }
        ensures { Means view_table TableOk self.new (table_of (view_known self.old) (view_known self.old)) }
    {
        self.held = self.known;
    }
}

// Where the hint of a name stands: a hash of its text. That of one that is too long, which is never held, is 0.
fn bucket(name: Name) -> usize
    ensures is { result ≡ bucket_of (view_text name) }
    ensures few { result < 1024 }
{
    let Some(text) = name.bytes.get(..name.len as usize) else {
        return 0;
    };
    let mut hash: usize = 0;
    for byte in text {
        hash = (hash * 37 + *byte as usize) % 1024;
    }
    hash
}

// The names of an operation's reads.
fn reads(op: &PipelineOp) -> &[Name]
    requires op_value { bad_info (view_op op.now).info ≡ false }
    requires op_value_2 { too_many (view_op op.now).info ≡ false }
    ensures { Lists 8 op.now.sources_len (view_op op.now).info.sources result.now }
{
    first(&op.sources, op.sources_len)
}

// The names of its writes.
fn writes(op: &PipelineOp) -> &[Name]
    requires op_value { bad_info (view_op op.now).info ≡ false }
    requires op_value_2 { too_many (view_op op.now).info ≡ false }
    ensures { Lists 4 op.now.writes_len (view_op op.now).info.writes result.now }
{
    first(&op.writes, op.writes_len)
}

// The first n names of an array.
fn first<const N: usize>(names: &[Name; N], n: u8) -> &[Name]
    ensures size { length names.now ≡ N }
    ensures is { result.now ≡ take n names.now }
{
    &names[..N.min(n as usize)]
}
