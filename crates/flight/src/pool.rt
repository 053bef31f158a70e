// The pool: what an operation carries from its fetch on, at a place that it keeps until it has left.
ghost use Rattle.std.specs.Prelude.{◌≡◌, replicate};
ghost use Rattle.laws.specs.Means.{Means};
ghost use Rattle.flight.specs.Pool.{decoded_of, texts_of, no_decoded, no_texts, all_decoded, all_texts, decoded_at, DecodedPoolOk, TextPoolOk};

use op::{Name, PipelineOp, Text};

// Numbers of an operation that no decision of a cycle reads.
#[derive(Clone, Copy)]
pub struct Decoded {
    pub address: u64,
    pub length: u64,
    pub predicted_next: u64,
    pub payload: u64,
    pub atomic: bool,
}

// The texts of an operation.
#[derive(Clone, Copy)]
pub struct Texts {
    pub disassembly: Text,
    pub fault: Option<Text>,
    pub destination: Option<Name>,
}

#[derive(Clone, Copy)]
pub struct DecodedPool {
    pub items: [Decoded; 80],
}

#[derive(Clone, Copy)]
pub struct TextPool {
    pub items: [Texts; 80],
}

// What no operation carries.
const NOTHING: Decoded = Decoded {
    address: 0,
    length: 0,
    predicted_next: 0,
    payload: 0,
    atomic: false,
};

impl Decoded {
    pub fn of(op: &PipelineOp, predicted_next: u64) -> Decoded
        ensures { result ≡ decoded_of op.now predicted_next }
    {
        Decoded {
            address: op.address,
            length: op.length,
            predicted_next,
            payload: op.payload,
            atomic: op.atomic,
        }
    }
}

impl Texts {
    pub fn of(op: &PipelineOp) -> Texts
        ensures { result ≡ texts_of op.now }
    {
        Texts {
            disassembly: op.disassembly,
            fault: op.fault,
            destination: op.destination,
        }
    }
}

impl DecodedPool {
    pub fn new() -> DecodedPool
        ensures { Means all_decoded DecodedPoolOk result (replicate 80 no_decoded) }
    {
        DecodedPool {
            items: [NOTHING; 80],
        }
    }

    #[tactic(auto, using(crate::proofs::Places::decoded_there))]
    // The numbers at a place; place 80 is that of no operation.
    pub fn at(&self, place: u8) -> Decoded
        requires { DecodedPoolOk self.now }
        ensures { result ≡ decoded_at self.now place }
    {
        self.items.get(place as usize).copied().unwrap_or(NOTHING)
    }
}

impl TextPool {
    pub fn new() -> TextPool
        ensures { Means all_texts TextPoolOk result (replicate 80 no_texts) }
    {
        let none = Texts {
            disassembly: Text {
                bytes: [0; 64],
                len: 0,
            },
            fault: None,
            destination: None,
        };
        TextPool { items: [none; 80] }
    }
}
