// One functional unit, and the scoreboard row that tracks it (pipeline/ooo/scoreboard.rs, Unit).
#![tactic(auto)]

use capability::{Phase, PipelineHazardKind, PipelineInstructionClass};
use flight::{Operands, Queued};
use registers::Waits;

// The waits of a unit.
pub mod waits;
// Units in a row.
pub mod lent;

ghost use Rattle.std.specs.Prelude.{◌≡◌, not, ◌&&◌, ℕ, ◌<◌, eqb};
ghost use Rattle.laws.specs.Lists.{elem};
ghost use Rattle.model.specs.Config.{is_memory, is_system};
ghost use Rattle.model.specs.Units.{
  idle_unit,
  clear,
  seq_of,
  in_phase,
  with_busy,
  clear_hazard,
  mark_hazard,
  without_waits,
  tick,
  begin,
  waits,
  read_one,
  occupy,
};
ghost use Rattle.model.specs.Write.{reads, older_memory};
ghost use Rattle.model.specs.Issue.{is_free, phase_label, unit_cell};
ghost use Rattle.registers.specs.View.{view_waits, WaitsOk, read, written};
ghost use Rattle.flight.specs.View.{Legend, view_queued, QueuedOk};
ghost use Rattle.units.specs.View.{view_unit, UnitOk, UnitIs};

// What changes while a unit works.
#[derive(Clone, Copy)]
pub struct Progress {
    pub phase: Phase,
    pub hazard: Option<PipelineHazardKind>,
    pub cycles_left: u8,
}

// A unit: its kind, its number within the kind, and the operation that it holds, whose place in the pool is `place`, 80 where it holds none.
// `pending` has the sources that are owed, and the unit that owes each. While its result is on offer `busy` is off and the rest stays.
#[derive(Clone, Copy)]
pub struct Unit {
    pub seq: u64,
    pub operands: Operands,
    pub pending: Waits,
    pub spec: u8,
    pub instance: u8,
    pub place: u8,
    pub class: PipelineInstructionClass,
    pub redirects: bool,
    pub busy: bool,
    pub progress: Progress,
}

// model: Config.is_memory
#[tactic(auto, using(crate::proofs::Cases::not_memory), unfolding(model::specs::Config::is_memory, model::specs::Config::same_class, capability::specs::Numbers::class_number))]
pub fn is_memory(class: PipelineInstructionClass) -> bool
    ensures { result ≡ is_memory class }
{
    matches!(
        class,
        PipelineInstructionClass::Load | PipelineInstructionClass::Store
    )
}

// model: Config.is_system
#[tactic(auto, using(crate::proofs::Cases::not_system), unfolding(model::specs::Config::is_system, model::specs::Config::same_class, capability::specs::Numbers::class_number))]
pub fn is_system(class: PipelineInstructionClass) -> bool
    ensures { result ≡ is_system class }
{
    matches!(class, PipelineInstructionClass::System)
}

// model: Issue.phase_label
#[tactic(auto, unfolding(model::specs::Issue::phase_label))]
fn phase_label(phase: Phase, spec: u8) -> u8
    requires { spec < 16 }
    ensures { result ≡ phase_label phase spec }
{
    match phase {
        Phase::Wait => 1,
        Phase::Read => 2,
        Phase::Execute => 8 + spec,
        Phase::Write => 3,
    }
}

#[tactic(auto, unfolding(crate::specs::View::view_unit, flight::specs::View::op_with, model::specs::Units::units))]
impl Unit {
    // model: Units.idle_unit
    #[tactic(auto, unfolding(crate::specs::View::view_unit, flight::specs::View::flights, model::specs::Units::units))]
    pub fn idle(spec: u8, instance: u8) -> Unit
        requires { spec < 16 }
        ensures { UnitIs result (λ g. idle_unit spec instance) 80 }
    {
        Unit {
            seq: 0,
            operands: Operands::none(),
            pending: Waits::none(),
            spec,
            instance,
            place: 80,
            class: PipelineInstructionClass::Unknown,
            redirects: false,
            busy: false,
            progress: Progress {
                phase: Phase::Wait,
                hazard: None,
                cycles_left: 0,
            },
        }
    }

    // model: Units.clear
    pub fn clear(&mut self)
        requires { UnitOk self.old }
        ensures { UnitIs self.new (λ g. clear (view_unit g self.old)) 80 }
    {
        *self = Unit::idle(self.spec, self.instance);
    }

    // Its operation's number; 2^64 - 1 where it is not busy.
    // model: Units.seq_of
    pub fn seq_of(&self) -> u64
        ensures { (g : Legend) → result ≡ seq_of (view_unit g self.now) }
    {
        if self.busy { self.seq } else { u64::MAX }
    }

    // model: Units.in_phase
    pub fn in_phase(&self, wanted: Phase) -> bool
        ensures { (g : Legend) → result ≡ in_phase wanted (view_unit g self.now) }
    {
        self.busy && self.progress.phase == wanted
    }

    // model: Units.with_busy
    pub fn set_busy(&mut self, busy: bool)
        requires { UnitOk self.old }
        ensures { UnitIs self.new (λ g. with_busy busy (view_unit g self.old)) self.old.place }
    {
        self.busy = busy;
    }

    // model: Units.clear_hazard
    pub fn clear_hazard(&mut self)
        requires { UnitOk self.old }
        ensures { UnitIs self.new (λ g. clear_hazard (view_unit g self.old)) self.old.place }
    {
        self.progress.hazard = None;
    }

    // model: Units.mark_hazard
    pub fn mark_hazard(&mut self, kind: PipelineHazardKind)
        requires { UnitOk self.old }
        ensures { UnitIs self.new (λ g. mark_hazard kind (view_unit g self.old)) self.old.place }
    {
        self.progress.hazard = Some(kind);
    }

    #[tactic(auto, unfolding(crate::specs::View::view_unit, flight::specs::View::op_with, model::specs::Units::tick))]
    // tick_execute: at 0 cycles left go to write, else one less.
    // model: Units.tick
    pub fn tick(&mut self)
        requires { UnitOk self.old }
        ensures { UnitIs self.new (λ g. tick (view_unit g self.old)) self.old.place }
    {
        if self.in_phase(Phase::Execute) {
            if self.progress.cycles_left == 0 {
                self.progress.phase = Phase::Write;
            } else {
                self.progress.cycles_left -= 1;
            }
        }
    }

    #[tactic(auto, unfolding(crate::specs::View::view_unit, flight::specs::View::op_with, model::specs::Units::begin))]
    // start_ready: the cycle that it starts in is one of those that it runs for.
    // model: Units.begin
    pub fn begin(&mut self)
        requires { UnitOk self.old }
        ensures { UnitIs self.new (λ g. begin (view_unit g self.old)) self.old.place }
    {
        if self.in_phase(Phase::Read) {
            self.progress.phase = Phase::Execute;
            self.progress.cycles_left = self.progress.cycles_left.saturating_sub(1);
        }
    }

    #[tactic(auto, using(crate::proofs::Pending::waits_empty), unfolding(crate::specs::View::view_unit, flight::specs::View::op_with, model::specs::Units::waits))]
    // model: Units.waits
    pub fn waits(&self) -> bool
        requires { UnitOk self.now }
        ensures { (g : Legend) → result ≡ waits (view_unit g self.now) }
    {
        self.in_phase(Phase::Wait) && self.pending.len != 0
    }

    #[tactic(auto, using(crate::proofs::Pending::waits_empty), unfolding(crate::specs::View::view_unit, flight::specs::View::op_with, model::specs::Units::read_one, model::specs::Units::waits, model::specs::Units::mark_hazard))]
    // read_operands: without waits on to read, else a RAW hazard.
    // model: Units.read_one
    pub fn read_one(&mut self)
        requires { UnitOk self.old }
        ensures { UnitIs self.new (λ g. read_one (view_unit g self.old)) self.old.place }
    {
        if self.in_phase(Phase::Wait) {
            if self.pending.len == 0 {
                self.progress.phase = Phase::Read;
            } else {
                self.mark_hazard(PipelineHazardKind::ReadAfterWrite);
            }
        }
    }

    // The phases of a cycle after the write: execute, start, read.
    // model: Units.read_one (begin (tick u))
    pub fn step(&mut self)
        requires { UnitOk self.old }
        ensures { UnitIs self.new (λ g. read_one (begin (tick (view_unit g self.old)))) self.old.place }
    {
        self.tick();
        self.begin();
        self.read_one();
    }

    // complete_write: no wait on a unit is left.
    // model: Units.without_waits
    pub fn without_waits(&mut self, producer: u8)
        requires { UnitOk self.old }
        ensures { UnitIs self.new (λ g. without_waits producer (view_unit g self.old)) self.old.place }
    {
        waits::without(&mut self.pending, producer);
    }

    #[tactic(auto, unfolding(crate::specs::View::view_unit, flight::specs::View::flights, model::specs::Units::units))]
    // issue: an operation moves in, with the waits that the claims gave before it made its own.
    // model: Units.occupy
    pub fn occupy(&mut self, op: &Queued, pending: Waits)
        requires unit_ok { UnitOk self.old }
        requires queued_ok { QueuedOk op.now }
        requires waits_ok { WaitsOk pending }
        ensures { UnitIs self.new (λ g. occupy (view_queued g op.now) (read op.now.operands) (written op.now.operands) (view_waits pending) (view_unit g self.old)) op.now.place }
    {
        self.seq = op.seq;
        self.operands = op.operands;
        self.pending = pending;
        self.place = op.place;
        self.class = op.class;
        self.redirects = op.branch;
        self.busy = true;
        self.progress = Progress {
            phase: Phase::Wait,
            hazard: op.hazard,
            cycles_left: op.latency,
        };
    }

    // model: elem, of the sources
    fn has_source(&self, register: u8) -> bool
        requires { UnitOk self.now }
        ensures { result ≡ elem register (read self.now.operands) }
    {
        self.operands
            .reads()
            .iter()
            .any(|source| register == *source)
    }

    // Busy, reads the register, and does not wait for it.
    #[tactic(auto, unfolding(crate::specs::View::view_unit, model::specs::Write::reads))]
    // model: Write.reads, but for the index
    pub fn reads(&self, register: u8) -> bool
        requires { UnitOk self.now }
        ensures { (g : Legend) (i j : ℕ) → reads i register j (view_unit g self.now) ≡ not (eqb j i) && result }
    {
        self.busy && self.has_source(register) && !waits::waits_for(&self.pending, register)
    }

    // A busy load or store that is older than a number.
    #[tactic(auto, unfolding(crate::specs::View::view_unit, flight::specs::View::op_with, model::specs::Units::seq_of, model::specs::Write::older_memory))]
    // model: Write.older_memory, but for the index
    pub fn is_older_memory(&self, seq: u64) -> bool
        ensures { (g : Legend) (i j : ℕ) → older_memory i seq j (view_unit g self.now) ≡ not (eqb j i) && result }
    {
        self.busy && is_memory(self.class) && self.seq < seq
    }

    // model: Issue.is_free
    #[tactic(auto, unfolding(crate::specs::View::view_unit, model::specs::Issue::is_free))]
    pub fn is_free(&self, spec: u8) -> bool
        ensures { (g : Legend) (i : ℕ) → result ≡ is_free spec i (view_unit g self.now) }
    {
        self.spec == spec && !self.busy
    }

    // model: Issue.unit_cell, its byte
    #[tactic(auto, using(crate::proofs::Cases::label_most, crate::proofs::Cases::stalled_most), unfolding(crate::specs::View::view_unit, flight::specs::View::op_with, model::specs::Issue::unit_cell))]
    pub fn cell(&self) -> u8
        requires { UnitOk self.now }
        ensures { (g : Legend) → unit_cell (view_unit g self.now) ≡ (self.now.seq, result) }
    {
        phase_label(self.progress.phase, self.spec) + flight::stalled(self.progress.hazard)
    }
}
