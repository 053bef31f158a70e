// The counters (capability/pipeline.rs, PipelineStats). Each stops at 2^64 - 1.
#![tactic(auto, unfolding(crate::specs::View::view_stats, model::specs::State::up))]

ghost use Rattle.std.specs.Prelude.{◌≡◌};
ghost use Rattle.laws.specs.Numbers.{saturating_add};
ghost use Rattle.model.specs.State.{count_cycle, count_retired, count_flush, count_stall};
ghost use Rattle.stalls.specs.View.{view_stats};

use capability::{PipelineHazardKind, PipelineStats};

// One more.
fn up(counter: &mut u64)
    ensures { counter.new ≡ saturating_add counter.old 1 }
{
    *counter = capability::saturating_add(*counter, 1);
}

// model: State.count_cycle
pub fn count_cycle(stats: &mut PipelineStats)
    ensures { view_stats stats.new ≡ count_cycle (view_stats stats.old) }
{
    up(&mut stats.cycles);
}

// model: State.count_retired
pub fn count_retired(stats: &mut PipelineStats, branch: bool)
    ensures { view_stats stats.new ≡ count_retired branch (view_stats stats.old) }
{
    up(&mut stats.committed);
    if branch {
        up(&mut stats.branches);
    }
}

// model: State.count_flush
pub fn count_flush(stats: &mut PipelineStats, dropped: u64)
    ensures { view_stats stats.new ≡ count_flush dropped (view_stats stats.old) }
{
    stats.stalls = capability::saturating_add(stats.stalls, dropped);
    stats.branch_stalls = capability::saturating_add(stats.branch_stalls, dropped);
    up(&mut stats.flushes);
}

// model: State.count_stall
#[tactic(auto, unfolding(crate::specs::View::view_stats, model::specs::State::up, model::specs::State::count_stall, model::specs::State::same_hazard, capability::specs::Numbers::hazard_number))]
pub fn count_stall(stats: &mut PipelineStats, kind: PipelineHazardKind)
    ensures { view_stats stats.new ≡ count_stall kind (view_stats stats.old) }
{
    up(&mut stats.stalls);
    match kind {
        PipelineHazardKind::ReadAfterWrite => up(&mut stats.raw_stalls),
        PipelineHazardKind::LoadUse => up(&mut stats.load_use_stalls),
        PipelineHazardKind::BranchFlush => up(&mut stats.branch_stalls),
        PipelineHazardKind::FunctionalUnitBusy => up(&mut stats.functional_unit_stalls),
        PipelineHazardKind::MemoryLatency => up(&mut stats.memory_stalls),
        PipelineHazardKind::WriteAfterWrite => up(&mut stats.waw_stalls),
        PipelineHazardKind::WriteAfterRead => up(&mut stats.war_stalls),
    }
}
