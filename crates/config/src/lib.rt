// What a machine declares (pipeline/config.rs), what making refuses of it, and what the engine keeps.
#![tactic(auto)]

ghost use Rattle.std.specs.Prelude.{◌≡◌, ◌||◌, not, map, length, eqb, ◌-◌, ◌≤◌, ◌<◌, min, max, ◌^◌, sum_by, All};
ghost use Rattle.laws.specs.Means.{Means};
ghost use Rattle.laws.specs.Numbers.{max64};
ghost use Rattle.std.specs.List.{list_any, list_all, position_from};
ghost use Rattle.model.specs.Config.{
  timing,
  default_timing,
  extra_cycles,
  latency,
  handles,
  generic_unit,
  at_least_one,
  specs_or_generic,
  capacities,
  spec_index,
  is_execute,
  execute_stage,
  queue_depth,
  machine_of,
};
ghost use Rattle.model.specs.Calls.{too_big, bad_text, bad_spec_name, extra_overflows, make_refusal};
ghost use Rattle.config.specs.View.{view_timing, flag, view_unit_spec, view_stage, view_shape, view_spec, view_specs, view_machine};
ghost use Rattle.op.specs.Chars.{view_text};
ghost use Rattle.capability.specs.Refusals.{refusal_of};
ghost use Rattle.config.specs.Checks.{nothing_declared, Accepted, noted_specs, noted, capacity_refusal};
ghost use Rattle.config.specs.Kept.{KindOk, SpecOk, SpecsOk, MachineOk};

use capability::{PipelineInstructionClass, PipelineStageRole, Refusal};
use op::Chars;

// Extra execution cycles of each class that has any, over the one that every operation takes.
#[derive(Clone, Copy)]
pub struct PipelineTiming {
    pub alu: u64,
    pub mul: u64,
    pub div: u64,
    pub load: u64,
    pub store: u64,
    pub system: u64,
    pub fp: u64,
}

// A kind's name: 1 to 8 bytes, each 0x20 to 0x7E. Others are refused.
pub type KindName = Chars<8>;

// A kind of functional unit as declared. `classes` has a flag for each class; with none set it takes every class.
#[derive(Clone, Copy)]
pub struct UnitSpec {
    pub name: KindName,
    pub classes: [bool; 10],
    // The class whose latency it shows while idle.
    pub latency_class: PipelineInstructionClass,
    // 0 reads as 1.
    pub capacity: u64,
}

// A stage of the declared datapath: of it only the role counts.
#[derive(Clone, Copy)]
pub struct StageSpec {
    pub role: PipelineStageRole,
}

// A machine as declared. Counts over 16 are refused.
#[derive(Clone, Copy)]
pub struct PipelineShape {
    pub stages: [StageSpec; 16],
    pub stages_len: usize,
    // The fixed length of an operation, where there is one.
    pub instruction_bytes: Option<u64>,
    pub timing: PipelineTiming,
    pub units: [UnitSpec; 16],
    pub units_len: usize,
    // Rows kept; 0 reads as 1.
    pub history: usize,
}

// A kind as the engine keeps it: `classes` says whether it takes a class.
#[derive(Clone, Copy)]
pub struct Spec {
    pub name: KindName,
    // No class was listed.
    pub every: bool,
    pub classes: [bool; 10],
    pub latency_class: PipelineInstructionClass,
    pub capacity: u8,
}

// What the engine keeps of a machine.
#[derive(Clone, Copy)]
pub struct Machine {
    pub specs: [Spec; 16],
    pub specs_len: usize,
    pub timing: PipelineTiming,
    pub depth: usize,
    pub history: usize,
    pub instruction_bytes: Option<u64>,
}

// Is no flag set?
fn lists_none(flags: &[bool; 10]) -> bool
    ensures { result ≡ list_all not flags.now }
{
    flags.iter().all(|flag| !*flag)
}

// Is a kind's name empty, or a bad text?
#[tactic(auto, using(crate::proofs::Units::name_length))]
fn is_bad_name(name: &KindName) -> bool
    ensures { result ≡ (eqb (length (view_text name.now)) 0 || bad_text 8 (view_text name.now)) }
{
    name.len == 0 || name.is_bad()
}

// The first stage whose role is Execute.
fn first_executing(stages: &[StageSpec]) -> Option<usize>
    ensures { result ≡ position_from (λ s. is_execute 0 (view_stage s)) 0 stages.now }
{
    stages.iter().position(|stage| stage.executes())
}

// Has one of them a bad name?
fn any_bad_name(units: &[UnitSpec]) -> bool
    ensures { result ≡ list_any (λ u. bad_spec_name (view_unit_spec u)) units.now }
{
    units.iter().any(|unit| unit.is_bad_name())
}

// The first kind that takes a class.
fn first_taking(kinds: &[Spec], class: PipelineInstructionClass) -> Option<usize>
    requires { All SpecOk kinds.now }
    ensures { result ≡ position_from (λ k. handles class (view_spec k)) 0 kinds.now }
{
    kinds.iter().position(|kind| kind.handles(class))
}

// The presets of the Rust.
impl Default for PipelineTiming {
    ghost is_default = { λ t. view_timing t ≡ default_timing };

    fn default() -> Self {
        Self {
            alu: 0,
            mul: 2,
            div: 19,
            load: 0,
            store: 0,
            system: 9,
            fp: 4,
        }
    }
}

impl PipelineTiming {
    // Every class takes one cycle.
    pub fn single_cycle() -> PipelineTiming
        ensures { view_timing result ≡ timing 0 0 0 0 0 0 0 }
    {
        PipelineTiming {
            alu: 0,
            mul: 0,
            div: 0,
            load: 0,
            store: 0,
            system: 0,
            fp: 0,
        }
    }

    // Cycles that a class spends in execute beyond the first.
    #[tactic(auto, unfolding(model::specs::Config::extra_cycles))]
    pub fn extra_cycles(&self, class: PipelineInstructionClass) -> u64
        ensures { result ≡ extra_cycles (view_timing self.now) class }
    {
        match class {
            PipelineInstructionClass::Alu => self.alu,
            PipelineInstructionClass::Multiply => self.mul,
            PipelineInstructionClass::Divide => self.div,
            PipelineInstructionClass::Load => self.load,
            PipelineInstructionClass::Store => self.store,
            PipelineInstructionClass::System => self.system,
            PipelineInstructionClass::FloatingPoint => self.fp,
            PipelineInstructionClass::Branch
            | PipelineInstructionClass::Jump
            | PipelineInstructionClass::Unknown => 0,
        }
    }

    // Cycles that a class holds its unit: 1 to 255.
    #[tactic(auto, unfolding(model::specs::Config::latency))]
    pub fn latency(&self, class: PipelineInstructionClass) -> u8
        ensures { result ≡ latency (view_timing self.now) class }
    {
        self.extra_cycles(class).saturating_add(1).min(255) as u8
    }

    // Refusal 3: an extra is 2^64 - 1.
    #[tactic(auto, unfolding(model::specs::Calls::extra_overflows))]
    pub fn overflows(&self) -> bool
        ensures { result ≡ extra_overflows (view_timing self.now) }
    {
        let extras = [
            self.alu,
            self.mul,
            self.div,
            self.load,
            self.store,
            self.system,
            self.fp,
        ];
        extras.contains(&u64::MAX)
    }
}

impl UnitSpec {
    // Stands in where no kind is declared.
    pub fn generic() -> UnitSpec
        ensures { view_unit_spec result ≡ generic_unit }
    {
        UnitSpec {
            name: KindName::from_slice(b"EX"),
            classes: [false; 10],
            latency_class: PipelineInstructionClass::Alu,
            capacity: 1,
        }
    }

    // Does it take the class?
    #[tactic(auto, using(crate::proofs::Classes::class_below, crate::proofs::Classes::none_listed, crate::proofs::Classes::takes_each, crate::proofs::Classes::takes_flagged), unfolding(crate::specs::View::flag))]
    pub fn handles(&self, class: PipelineInstructionClass) -> bool
        ensures { result ≡ handles class (view_unit_spec self.now) }
    {
        lists_none(&self.classes) || self.classes[class.as_usize()]
    }

    // Refusal 2, of its name.
    #[tactic(auto, unfolding(model::specs::Calls::bad_spec_name, crate::specs::View::view_unit_spec))]
    pub fn is_bad_name(&self) -> bool
        ensures { result ≡ bad_spec_name (view_unit_spec self.now) }
    {
        is_bad_name(&self.name)
    }

    // What the engine keeps of it.
    fn kept(&self) -> Spec
        requires { KindOk (view_unit_spec self.now) }
        ensures { Means view_spec SpecOk result (at_least_one (view_unit_spec self.now)) }
    {
        let every = lists_none(&self.classes);
        Spec {
            name: self.name.whole(),
            every,
            classes: if every { [true; 10] } else { self.classes },
            latency_class: self.latency_class,
            capacity: self.capacity.max(1) as u8,
        }
    }
}

impl StageSpec {
    #[tactic(auto, unfolding(model::specs::Config::is_execute, crate::specs::View::view_stage, capability::specs::Numbers::role_number))]
    fn executes(&self) -> bool
        ensures { result ≡ is_execute 0 (view_stage self.now) }
    {
        self.role == PipelineStageRole::Execute
    }
}

impl PipelineShape {
    // Declares nothing: a shape to start from.
    pub fn empty() -> PipelineShape
        ensures { view_shape result ≡ nothing_declared }
    {
        PipelineShape {
            stages: [StageSpec {
                role: PipelineStageRole::Other,
            }; 16],
            stages_len: 0,
            instruction_bytes: None,
            timing: PipelineTiming::single_cycle(),
            units: [UnitSpec::generic(); 16],
            units_len: 0,
            history: 0,
        }
    }

    // The first Execute stage, or else the last stage.
    #[tactic(auto, using(crate::proofs::Shapes::stage_found))]
    pub fn execute_stage(&self) -> usize
        ensures { result ≡ execute_stage (view_shape self.now).stages }
    {
        first_executing(&self.stages[..self.stages_len.min(16)]).unwrap_or(
            self.stages_len.saturating_sub(1),
        )
    }

    // How many operations the queue before issue holds.
    #[tactic(auto, unfolding(model::specs::Config::queue_depth))]
    pub fn queue_depth(&self) -> usize
        ensures { result ≡ queue_depth (view_shape self.now).stages }
    {
        self.execute_stage().max(1)
    }

    // The units of all kinds, or 2^64 - 1 where they are past that.
    #[tactic(auto, using(crate::proofs::Shapes::units_sum))]
    fn units_total(&self) -> u64
        requires { self.now.units_len ≤ 16 }
        ensures { result ≡ min (capacities (map at_least_one (view_shape self.now).units)) max64 }
    {
        self.units[..self.units_len].iter().fold(
            0,
            |sum: u64, unit| sum.saturating_add(unit.capacity.max(1)),
        )
    }

    // Refusal 1.
    #[tactic(auto, using(crate::proofs::Shapes::stages_count, crate::proofs::Shapes::units_count, crate::proofs::Units::over_64), unfolding(model::specs::Calls::too_big, crate::specs::View::view_shape))]
    pub fn too_big(&self) -> bool
        ensures { result ≡ too_big (view_shape self.now) }
    {
        16 < self.units_len || 64 < self.units_total() || 16 < self.stages_len || 256 < self.history
    }

    // Refusal 2.
    #[tactic(auto, using(crate::proofs::Shapes::names_first))]
    pub fn bad_names(&self) -> bool
        ensures { result ≡ list_any bad_spec_name (view_shape self.now).units }
    {
        any_bad_name(&self.units[..self.units_len.min(16)])
    }

    // Making's refusals in order, with `lent` bytes of cell memory: 1, 2, 3, 13.
    #[tactic(auto, using(crate::proofs::Checks::small_of), unfolding(model::specs::Calls::make_refusal, model::specs::Calls::make_checks, model::specs::Calls::first_of, crate::specs::View::view_shape))]
    pub fn checked(&self, lent: usize) -> Result<(), Refusal>
        ensures { refusal_of result ≡ make_refusal (view_shape self.now) lent }
    {
        if self.too_big() {
            return Err(Refusal::TooBig);
        }
        if self.bad_names() {
            return Err(Refusal::BadText);
        }
        if self.timing.overflows() {
            return Err(Refusal::ExtraOverflows);
        }
        if lent < self.history.max(1) * 200 {
            return Err(Refusal::ShortMemory);
        }
        Ok(())
    }

    // The kinds that the engine keeps; with none declared, the generic one.
    fn kept_specs(&self) -> [Spec; 16]
        requires { Accepted (view_shape self.now) }
        ensures { Means (view_specs (max 1 self.now.units_len)) SpecsOk result (specs_or_generic (view_shape self.now).units) }
    {
        let mut specs = [UnitSpec::generic().kept(); 16];
        for i in 0..self.units_len {
            specs[i] = self.units[i].kept();
        }
        specs
    }

    // What the engine keeps of a machine that was checked.
    pub fn machine(&self) -> Machine
        requires { Accepted (view_shape self.now) }
        ensures { Means view_machine MachineOk result (machine_of (view_shape self.now)) }
    {
        Machine {
            specs: self.kept_specs(),
            specs_len: self.units_len.max(1),
            timing: self.timing,
            depth: self.queue_depth(),
            history: self.history.max(1),
            instruction_bytes: self.instruction_bytes,
        }
    }
}

impl Spec {
    // Does its flag of the class stand?
    #[tactic(auto, using(crate::proofs::Classes::class_below), unfolding(crate::specs::View::flag))]
    fn takes(&self, class: PipelineInstructionClass) -> bool
        ensures { result ≡ flag self.now.classes class }
    {
        self.classes[class.as_usize()]
    }

    // Does the kind take the class?
    pub fn handles(&self, class: PipelineInstructionClass) -> bool
        requires { SpecOk self.now }
        ensures { result ≡ handles class (view_spec self.now) }
    {
        self.takes(class)
    }
}

// The units of kinds in a row.
fn total(kinds: &[Spec]) -> u64
    requires { sum_by (λ k. k.capacity) kinds.now < 2 ^ 64 }
    ensures { result ≡ sum_by (λ k. k.capacity) kinds.now }
{
    kinds.iter().map(|kind| kind.capacity as u64).sum()
}

impl Machine {
    // The first kind that takes the class, or else kind 0.
    pub fn spec_index(&self, class: PipelineInstructionClass) -> usize
        requires { MachineOk self.now }
        ensures { result ≡ spec_index (view_machine self.now).specs class }
    {
        first_taking(&self.specs[..self.specs_len], class).unwrap_or(0)
    }

    #[tactic(auto, unfolding(crate::specs::View::view_machine))]
    pub fn latency(&self, class: PipelineInstructionClass) -> u8
        ensures { result ≡ latency (view_machine self.now).times class }
    {
        self.timing.latency(class)
    }

    // The units of all kinds.
    #[tactic(auto, using(crate::proofs::Machines::kinds_sum))]
    pub fn units_total(&self) -> u64
        requires { MachineOk self.now }
        ensures { result ≡ capacities (view_machine self.now).specs }
    {
        total(&self.specs[..self.specs_len])
    }

    // The units of all kinds after a capacity change, or 2^64 - 1 where they are past that.
    #[tactic(auto, using(crate::proofs::Machines::kind_most, crate::proofs::Machines::noted_total))]
    fn total_with(&self, kind: usize, instances: u64) -> u64
        requires machine_ok { MachineOk self.now }
        requires kind_bound { kind < self.now.specs_len }
        ensures { result ≡ min (capacities (noted_specs kind instances (view_machine self.now).specs)) max64 }
    {
        let others = self.units_total() - self.specs[kind].capacity as u64;
        others.saturating_add(instances.max(1))
    }

    // Refusals 12 and 1 of a capacity change, in that order.
    #[tactic(auto, using(crate::proofs::Checks::no_kind, crate::proofs::Checks::no_room, crate::proofs::Checks::has_room))]
    pub fn capacity_refused(&self, kind: usize, instances: u64) -> Result<(), Refusal>
        requires { MachineOk self.now }
        ensures { refusal_of result ≡ capacity_refusal kind instances (view_machine self.now).specs }
    {
        if self.specs_len <= kind {
            return Err(Refusal::NoSuchKind);
        }
        if 64 < self.total_with(kind, instances) {
            return Err(Refusal::TooBig);
        }
        Ok(())
    }

    // The machine with another capacity of one kind.
    #[tactic(auto, using(crate::proofs::Machines::change_there, crate::proofs::Machines::change_most))]
    pub fn note(&mut self, kind: usize, instances: u64)
        requires machine_ok { MachineOk self.old }
        requires self_value { capacity_refusal kind instances (view_machine self.old).specs ≡ None }
        ensures { Means view_machine MachineOk self.new (noted kind instances (view_machine self.old)) }
    {
        self.specs[kind].capacity = instances.max(1) as u8;
    }
}
