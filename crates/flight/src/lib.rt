// Operations in flight: the fetch queue, and the pool of what is only moved, looked at and shown.
#![tactic(auto)]

use capability::{PipelineHazardKind, PipelineInstructionClass};
pub use registers::Operands;

// What a fetch writes to the pool.
pub mod pool;

ghost use Rattle.std.specs.Prelude.{◌≡◌, [], ◌∷◌, ◌++◌, map, ◌<◌};
ghost use Rattle.laws.specs.Means.{MeansFor};
ghost use Rattle.laws.specs.Lists.{rest, modify};
ghost use Rattle.model.specs.Op.{no_op, with_hazard};
ghost use Rattle.model.specs.Issue.{stalled_or};
ghost use Rattle.flight.specs.View.{view_queued, view_queue, entries, QueuedOk, QueueOk};
ghost use Rattle.flight.specs.Promises.{hazardous, Queues};

// A queued operation. `seq` counts the fetches accepted before it, and is the id of its row; `place` is its place in the pool.
#[derive(Clone, Copy)]
pub struct Queued {
    pub seq: u64,
    pub operands: Operands,
    pub class: PipelineInstructionClass,
    pub branch: bool,
    pub hazard: Option<PipelineHazardKind>,
    pub latency: u8,
    pub place: u8,
}

// Fetched and not yet issued, in program order.
#[derive(Clone, Copy)]
pub struct Queue {
    pub items: [Queued; 16],
    pub len: usize,
}

// State 32 of a cell where there is a hazard.
#[tactic(auto, unfolding(model::specs::Issue::stalled_or))]
pub fn stalled(hazard: Option<PipelineHazardKind>) -> u8
    ensures { result ≡ stalled_or hazard }
{
    if hazard.is_some() { 32 } else { 0 }
}

impl Queued {
    #[tactic(auto, unfolding(crate::specs::View::view_queued, crate::specs::View::op_with, crate::specs::View::carried_at))]
    pub fn none() -> Queued
        ensures { MeansFor view_queued QueuedOk result (λ g. no_op) }
    {
        Queued {
            seq: 0,
            operands: Operands::none(),
            class: PipelineInstructionClass::Unknown,
            branch: false,
            hazard: None,
            latency: 0,
            place: 80,
        }
    }

    // model: Issue.queue_cell, its byte
    pub fn cell(&self) -> u8
        ensures { result ≡ stalled_or self.now.hazard }
    {
        stalled(self.hazard)
    }
}

impl Queue {
    #[tactic(auto, unfolding(crate::specs::View::entries, crate::specs::View::view_queue))]
    pub fn new() -> Queue
        ensures { Queues result [] (λ g. []) }
    {
        Queue {
            items: [Queued::none(); 16],
            len: 0,
        }
    }

    #[tactic(auto, unfolding(crate::specs::View::entries))]
    pub fn as_slice(&self) -> &[Queued]
        requires { QueueOk self.now }
        ensures { result.now ≡ entries self.now }
    {
        &self.items[..self.len]
    }

    // model: queue ++ (o ∷ [])
    pub fn push_back(&mut self, op: Queued)
        requires queue_ok { QueueOk self.old }
        requires queued_ok { QueuedOk op }
        requires len_bound { self.old.len < 16 }
        ensures { Queues self.new (entries self.old ++ op ∷ []) (λ g. view_queue g self.old ++ view_queued g op ∷ []) }
    {
        self.items[self.len] = op;
        self.len += 1;
    }

    // model: Lists.rest
    pub fn pop_front(&mut self)
        requires { QueueOk self.old }
        ensures { Queues self.new (rest (entries self.old)) (λ g. rest (view_queue g self.old)) }
    {
        if self.len != 0 {
            self.items.copy_within(1..self.len, 0);
            self.len -= 1;
        }
    }

    // model: map (with_hazard none)
    pub fn clear_hazards(&mut self)
        requires { QueueOk self.old }
        ensures { Queues self.new (map (hazardous None) (entries self.old)) (λ g. map (with_hazard None) (view_queue g self.old)) }
    {
        for op in &mut self.items[..self.len] {
            op.hazard = None;
        }
    }

    // model: modify 0 (with_hazard (some kind))
    pub fn block_front(&mut self, kind: PipelineHazardKind)
        requires { QueueOk self.old }
        ensures { Queues self.new (modify 0 (hazardous (Some kind)) (entries self.old)) (λ g. modify 0 (with_hazard (Some kind)) (view_queue g self.old)) }
    {
        self.items[0].hazard = Some(kind);
    }

    #[tactic(auto, unfolding(crate::specs::View::entries, crate::specs::View::view_queue))]
    pub fn flush(&mut self)
        requires { QueueOk self.old }
        ensures { Queues self.new [] (λ g. []) }
    {
        self.len = 0;
    }
}
