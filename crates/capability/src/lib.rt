// What a host reads of a pipeline (capability/pipeline.rs): the kinds of thing that it tells apart, and the counters.
#![tactic(auto)]

ghost use Rattle.std.specs.Prelude.{◌≡◌};
ghost use Rattle.std.specs.Result.{result_ok};
ghost use Rattle.laws.specs.Numbers.{saturating_add};
ghost use Rattle.capability.specs.Numbers.{
  class_number,
  hazard_number,
  trace_number,
  role_number,
  edge_number,
  state_number,
  entry_number,
  phase_number,
};
ghost use Rattle.capability.specs.Cases.{
  class_of,
  role_of,
  stall_index,
  occupied,
  no_stats,
  sequential_edge,
};
ghost use Rattle.capability.specs.Refusals.{refusal_number};
ghost use Rattle.capability.specs.Labels.{
  class_label,
  hazard_label,
  hazard_tag,
  trace_label,
  entry_label,
};

use std::error::Error;
use std::fmt;

// Broad instruction categories, for timing and presentation.
#[derive(Clone, Copy, Debug, PartialEq, Eq)]
pub enum PipelineInstructionClass {
    Alu,
    Multiply,
    Divide,
    Load,
    Store,
    Branch,
    Jump,
    System,
    FloatingPoint,
    Unknown,
}

// Hazards common to pipeline models.
#[derive(Clone, Copy, Debug, PartialEq, Eq)]
pub enum PipelineHazardKind {
    ReadAfterWrite,
    LoadUse,
    BranchFlush,
    FunctionalUnitBusy,
    MemoryLatency,
    WriteAfterWrite,
    WriteAfterRead,
}

// What an entry of the trace tells.
#[derive(Clone, Copy, Debug, PartialEq, Eq)]
pub enum PipelineTraceKind {
    Hazard(PipelineHazardKind),
    Forward,
}

// What a stage is for.
#[derive(Clone, Copy, Debug, PartialEq, Eq)]
pub enum PipelineStageRole {
    Fetch,
    Decode,
    Issue,
    Execute,
    Memory,
    Writeback,
    Commit,
    Other,
}

// How instructions move between two stages.
#[derive(Clone, Copy, Debug, PartialEq, Eq)]
pub enum PipelineEdgeKind {
    Sequential,
    Forward,
    Feedback,
}

// What a cell of the timeline shows.
#[derive(Clone, Copy, Debug, PartialEq, Eq)]
pub enum PipelineTimelineState {
    Empty,
    Active,
    Speculative,
    Stalled,
    Bubble,
    Flushed,
}

// How far an instruction in a station has got.
#[derive(Clone, Copy, Debug, PartialEq, Eq)]
pub enum PipelineEntryPhase {
    Free,
    Waiting,
    Armed,
    Executing,
    Finished,
    Committing,
}

// Where an instruction is within a unit. (scoreboard.rs; here because model and code share it.)
#[derive(Clone, Copy, Debug, PartialEq, Eq)]
pub enum Phase {
    Wait,
    Read,
    Execute,
    Write,
}

// What a call, making, or a list or line of input is refused for, by its number for no.
#[derive(Clone, Copy, Debug, PartialEq, Eq)]
pub enum Refusal {
    // A machine, or one after a capacity change, has too many kinds, units, stages or rows.
    TooBig = 1,
    // A text or a name is too long, or has a byte outside 0x20 to 0x7E.
    BadText = 2,
    // An extra of the timing is 2^64 - 1.
    ExtraOverflows = 3,
    InCycle = 4,
    NotInCycle = 5,
    NoOffer = 6,
    // The offer was not retired.
    Unsettled = 7,
    NotInvited = 8,
    // An operation has over 8 sources or 4 destinations.
    TooManyNames = 9,
    // The table has no room for an operation's names.
    NamesFull = 10,
    // The operations' numbers are used up.
    NumbersUsedUp = 11,
    NoSuchKind = 12,
    // The lent memory is short.
    ShortMemory = 13,
    // A list or a line is not of its form, or too long.
    BadForm = 14,
}

// Lifecycle and mode flags.
#[derive(Clone, Copy, Debug, PartialEq, Eq)]
pub struct PipelineStatus {
    pub enabled: bool,
    pub sequential: bool,
    pub halted: bool,
    pub faulted: bool,
}

// The counters; each stops at 2^64 - 1.
#[derive(Clone, Copy, Debug, Default, PartialEq, Eq)]
pub struct PipelineStats {
    pub cycles: u64,
    pub committed: u64,
    pub stalls: u64,
    pub raw_stalls: u64,
    pub load_use_stalls: u64,
    pub branch_stalls: u64,
    pub functional_unit_stalls: u64,
    pub memory_stalls: u64,
    pub waw_stalls: u64,
    pub war_stalls: u64,
    pub flushes: u64,
    pub branches: u64,
}

// A directed edge between two stages.
#[derive(Clone, Copy, Debug, PartialEq, Eq)]
pub struct PipelineEdge {
    pub from: u8,
    pub to: u8,
    pub kind: PipelineEdgeKind,
}

// A number that no case has.
#[derive(Clone, Copy, Debug, PartialEq, Eq)]
pub struct UnknownNumber(pub u8);

impl fmt::Display for UnknownNumber {
    fn fmt<W: fmt::Write>(&self, f: &mut fmt::Formatter<W>) -> fmt::Result {
        write!(f, "no case has the number {}", self.0)
    }
}

impl Error for UnknownNumber {}

impl PipelineInstructionClass {
    pub const COUNT: usize = 10;

    pub const ALL: [Self; Self::COUNT] = [
        Self::Alu,
        Self::Multiply,
        Self::Divide,
        Self::Load,
        Self::Store,
        Self::Branch,
        Self::Jump,
        Self::System,
        Self::FloatingPoint,
        Self::Unknown,
    ];

    #[tactic(auto, unfolding(crate::specs::Labels::class_label, crate::specs::Labels::labels))]
    pub fn label(self) -> &'static str
        ensures { result.now ≡ class_label self }
    {
        match self {
            Self::Alu => "ALU",
            Self::Multiply => "MUL",
            Self::Divide => "DIV",
            Self::Load => "Load",
            Self::Store => "Store",
            Self::Branch => "Branch",
            Self::Jump => "Jump",
            Self::System => "System",
            Self::FloatingPoint => "FP",
            Self::Unknown => "?",
        }
    }

    #[tactic(auto, unfolding(crate::specs::Numbers::class_number))]
    pub fn as_usize(self) -> usize
        ensures { result ≡ class_number self }
    {
        self as usize
    }
}

#[tactic(auto, unfolding(crate::specs::Cases::class_of))]
impl TryFrom<u8> for PipelineInstructionClass {
    type Error = UnknownNumber;

    ghost try_from_gives = { λ number r. result_ok r ≡ class_of number };

    fn try_from(number: u8) -> Result<Self, UnknownNumber> {
        Self::ALL
            .get(number as usize)
            .copied()
            .ok_or(UnknownNumber(number))
    }
}

impl PipelineHazardKind {
    // How many hazard kinds cost cycles.
    pub const STALL_TYPE_COUNT: usize = 5;

    #[tactic(auto, unfolding(crate::specs::Labels::hazard_label, crate::specs::Labels::labels))]
    pub fn label(self) -> &'static str
        ensures { result.now ≡ hazard_label self }
    {
        match self {
            Self::ReadAfterWrite => "RAW",
            Self::LoadUse => "load-use",
            Self::BranchFlush => "branch flush",
            Self::FunctionalUnitBusy => "FU busy",
            Self::MemoryLatency => "cache stall",
            Self::WriteAfterWrite => "WAW",
            Self::WriteAfterRead => "WAR",
        }
    }

    // A hazard's tag in a trace.
    #[tactic(auto, unfolding(crate::specs::Labels::hazard_tag, crate::specs::Labels::labels))]
    fn tag(self) -> &'static str
        ensures { result.now ≡ hazard_tag self }
    {
        match self {
            Self::ReadAfterWrite => "RAW",
            Self::LoadUse => "LOAD",
            Self::BranchFlush => "CTRL",
            Self::FunctionalUnitBusy => "FU",
            Self::MemoryLatency => "MEM",
            Self::WriteAfterWrite => "WAW",
            Self::WriteAfterRead => "WAR",
        }
    }

    // A place among the STALL_TYPE_COUNT counters; the name hazards have none.
    pub fn as_stall_index(self) -> Option<usize>
        ensures { result ≡ stall_index self }
    {
        match self {
            Self::ReadAfterWrite => Some(0),
            Self::LoadUse => Some(1),
            Self::BranchFlush => Some(2),
            Self::FunctionalUnitBusy => Some(3),
            Self::MemoryLatency => Some(4),
            Self::WriteAfterWrite | Self::WriteAfterRead => None,
        }
    }
}

#[tactic(auto, unfolding(crate::specs::Numbers::hazard_number))]
impl From<PipelineHazardKind> for u8 {
    ghost from_gives = { λ hazard number. number ≡ hazard_number hazard };

    fn from(hazard: PipelineHazardKind) -> u8 {
        hazard as u8
    }
}

impl PipelineTraceKind {
    // A tag for a dense trace column.
    #[tactic(auto, unfolding(crate::specs::Labels::trace_label, crate::specs::Labels::labels))]
    pub fn short_label(self) -> &'static str
        ensures { result.now ≡ trace_label self }
    {
        match self {
            Self::Hazard(hazard) => hazard.tag(),
            Self::Forward => "FWD",
        }
    }
}

#[tactic(auto, unfolding(crate::specs::Numbers::trace_number))]
impl From<PipelineTraceKind> for u8 {
    ghost from_gives = { λ kind number. number ≡ trace_number kind };

    fn from(kind: PipelineTraceKind) -> u8 {
        match kind {
            PipelineTraceKind::Hazard(hazard) => u8::from(hazard),
            PipelineTraceKind::Forward => 7,
        }
    }
}

impl PipelineStageRole {
    pub const COUNT: usize = 8;

    pub const ALL: [Self; Self::COUNT] = [
        Self::Fetch,
        Self::Decode,
        Self::Issue,
        Self::Execute,
        Self::Memory,
        Self::Writeback,
        Self::Commit,
        Self::Other,
    ];
}

#[tactic(auto, unfolding(crate::specs::Numbers::role_number))]
impl From<PipelineStageRole> for u8 {
    ghost from_gives = { λ role number. number ≡ role_number role };

    fn from(role: PipelineStageRole) -> u8 {
        role as u8
    }
}

#[tactic(auto, unfolding(crate::specs::Cases::role_of))]
impl TryFrom<u8> for PipelineStageRole {
    type Error = UnknownNumber;

    ghost try_from_gives = { λ number r. result_ok r ≡ role_of number };

    fn try_from(number: u8) -> Result<Self, UnknownNumber> {
        Self::ALL
            .get(number as usize)
            .copied()
            .ok_or(UnknownNumber(number))
    }
}

impl PipelineEdgeKind {}

impl PipelineTimelineState {}

impl PipelineEntryPhase {
    #[tactic(auto, unfolding(crate::specs::Labels::entry_label, crate::specs::Labels::labels))]
    pub fn label(self) -> &'static str
        ensures { result.now ≡ entry_label self }
    {
        match self {
            Self::Free => "free",
            Self::Waiting => "wait",
            Self::Armed => "armed",
            Self::Executing => "exec",
            Self::Finished => "ready",
            Self::Committing => "commit",
        }
    }

    pub fn occupied(self) -> bool
        ensures { result ≡ occupied self }
    {
        self != Self::Free
    }
}

#[tactic(auto, unfolding(crate::specs::Numbers::entry_number))]
impl From<PipelineEntryPhase> for u8 {
    ghost from_gives = { λ phase number. number ≡ entry_number phase };

    fn from(phase: PipelineEntryPhase) -> u8 {
        phase as u8
    }
}

impl Phase {}

#[tactic(auto, unfolding(crate::specs::Numbers::edge_number))]
impl From<PipelineEdgeKind> for u8 {
    ghost from_gives = { λ kind number. number ≡ edge_number kind };

    fn from(kind: PipelineEdgeKind) -> u8 {
        kind as u8
    }
}

#[tactic(auto, unfolding(crate::specs::Numbers::state_number))]
impl From<PipelineTimelineState> for u8 {
    ghost from_gives = { λ state number. number ≡ state_number state };

    fn from(state: PipelineTimelineState) -> u8 {
        state as u8
    }
}

#[tactic(auto, unfolding(crate::specs::Numbers::phase_number))]
impl From<Phase> for u8 {
    ghost from_gives = { λ phase number. number ≡ phase_number phase };

    fn from(phase: Phase) -> u8 {
        phase as u8
    }
}

// The number for no.
impl From<Refusal> for u8 {
    ghost from_gives = { λ refusal number. number ≡ refusal_number refusal };

    fn from(refusal: Refusal) -> u8 {
        refusal as u8
    }
}

impl fmt::Display for Refusal {
    fn fmt<W: fmt::Write>(&self, f: &mut fmt::Formatter<W>) -> fmt::Result {
        write!(f, "refused with number {}", u8::from(*self))
    }
}

impl Error for Refusal {}

impl PipelineStats {
    // Every counter at 0.
    pub fn new() -> Self
        ensures { result ≡ no_stats }
    {
        Self::default()
    }
}

impl PipelineEdge {
    pub fn sequential(from: u8, to: u8) -> Self
        ensures { result ≡ sequential_edge from to }
    {
        Self {
            from,
            to,
            kind: PipelineEdgeKind::Sequential,
        }
    }
}

// The sum, or 2^64 - 1 where it is past that.
pub fn saturating_add(a: u64, b: u64) -> u64
    ensures { result ≡ saturating_add a b }
{
    a.saturating_add(b)
}
