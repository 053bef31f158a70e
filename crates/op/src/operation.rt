// The methods of PipelineOp (pipeline/op.rs).
#![tactic(auto, unfolding(crate::specs::View::views, crate::specs::Build::build))]

ghost use Rattle.std.specs.Prelude.{◌≡◌, false, [], take};
ghost use Rattle.std.specs.List.{list_any};
ghost use Rattle.laws.specs.Texts.{bytes};
ghost use Rattle.capability.specs.declared.PipelineInstructionClass.TheVariants.{Unknown};
ghost use Rattle.model.specs.Op.{given, decoded, info_of, sequential_address};
ghost use Rattle.model.specs.Calls.{bad_text, bad_info, too_many};
ghost use Rattle.op.specs.Chars.{view_text};
ghost use Rattle.op.specs.View.{view_op};
ghost use Rattle.op.specs.Build.{sized, branched, indivisible, with_write, with_destination, with_source};

use super::{Name, PipelineOp, Text};
use capability::PipelineInstructionClass;

impl PipelineOp {
    pub fn new(
        address: u64,
        disassembly: Text,
        class: PipelineInstructionClass,
        payload: u64,
    ) -> PipelineOp
        ensures { view_op result ≡ given (decoded address 0 class false false) (info_of (view_text disassembly) None None [] [] payload) }
    {
        PipelineOp {
            address,
            length: 0,
            class,
            branch: false,
            atomic: false,
            disassembly,
            fault: None,
            destination: None,
            sources: [Name::empty(); 8],
            sources_len: 0,
            writes: [Name::empty(); 4],
            writes_len: 0,
            payload,
        }
    }

    // An operation standing in for a fetch that could not happen.
    #[tactic(auto, unfolding(crate::specs::View::views, laws::specs::Texts::texts))]
    pub fn faulted(address: u64, message: Text, payload: u64) -> PipelineOp
        ensures { view_op result ≡ given (decoded address 0 Unknown false false) (info_of (bytes "fetch fault") (Some (view_text message)) None [] [] payload) }
    {
        let text = Text::from_slice(b"fetch fault");
        let mut op = PipelineOp::new(address, text, PipelineInstructionClass::Unknown, payload);
        op.fault = Some(message);
        op
    }

    pub fn with_length(mut self, length: u64) -> PipelineOp
        ensures { view_op result ≡ sized length (view_op self) }
    {
        self.length = length;
        self
    }

    pub fn branching(mut self) -> PipelineOp
        ensures { view_op result ≡ branched (view_op self) }
    {
        self.branch = true;
        self
    }

    pub fn atomic(mut self) -> PipelineOp
        ensures { view_op result ≡ indivisible (view_op self) }
    {
        self.atomic = true;
        self
    }

    // Record a register that it writes without displaying it.
    #[tactic(auto, using(crate::proofs::Names::pushes), unfolding(crate::specs::View::view_op, crate::specs::Build::with_write))]
    pub fn also_writes(mut self, register: Name) -> PipelineOp
        ensures { view_op result ≡ with_write (view_text register) (view_op self) }
    {
        if self.writes_len < 4 {
            self.writes[self.writes_len as usize] = register;
        }
        self.writes_len = self.writes_len.saturating_add(1);
        self
    }

    // Name the register that it writes: displayed, and recorded.
    pub fn writing(self, register: Name) -> PipelineOp
        ensures { view_op result ≡ with_destination (view_text register) (with_write (view_text register) (view_op self)) }
    {
        let mut op = self.also_writes(register);
        op.destination = Some(register);
        op
    }

    // Record a register that it reads.
    #[tactic(auto, using(crate::proofs::Names::pushes), unfolding(crate::specs::View::view_op, crate::specs::Build::with_source))]
    pub fn reading(mut self, register: Name) -> PipelineOp
        ensures { view_op result ≡ with_source (view_text register) (view_op self) }
    {
        if self.sources_len < 8 {
            self.sources[self.sources_len as usize] = register;
        }
        self.sources_len = self.sources_len.saturating_add(1);
        self
    }

    // Refusal 2 at a fetch: a text, a note, the shown destination, or one of the first 8 and 4 names.
    #[tactic(auto, using(crate::proofs::Names::bad_op))]
    pub fn is_bad(&self) -> bool
        ensures { result ≡ bad_info (view_op self.now).info }
    {
        self.disassembly.is_bad()
            || self.fault.is_some_and(|note| note.is_bad())
            || self.destination.is_some_and(|name| name.is_bad())
            || any_bad(&self.sources, self.sources_len)
            || any_bad(&self.writes, self.writes_len)
    }

    // Refusal 9 at a fetch: over 8 sources or 4 writes.
    #[tactic(auto, using(crate::proofs::Names::counts), unfolding(crate::specs::View::view_op, model::specs::Calls::too_many))]
    pub fn too_many(&self) -> bool
        ensures { result ≡ too_many (view_op self.now).info }
    {
        8 < self.sources_len || 4 < self.writes_len
    }

    // The address after it, given the machine's fixed length.
    #[tactic(auto, unfolding(crate::specs::View::view_op, model::specs::Op::sequential_address))]
    pub fn sequential_address(&self, stride: Option<u64>) -> u64
        ensures { result ≡ sequential_address stride (view_op self.now).decoded }
    {
        self.address
            .wrapping_add(stride.unwrap_or(self.length).max(1))
    }
}

// Whether one of the first n names is refused.
fn any_bad(names: &[Name], n: u8) -> bool
    ensures { result ≡ list_any (λ name. bad_text 16 (view_text {N = 16} name)) (take n names.now) }
{
    names.iter().take(n as usize).any(|name| name.is_bad())
}
