// Waits of a cycle: each is listed and counted (ooo/scoreboard.rs, stall; pipeline/timeline.rs, Trace).
#![tactic(auto)]

use capability::{PipelineHazardKind, PipelineStats};
use timeline::WaitForm;

// The counters.
pub mod stats;

ghost use Rattle.std.specs.Prelude.{◌≡◌, [], ◌∷◌, ◌++◌, ◌<◌};
ghost use Rattle.laws.specs.Lists.{All};
ghost use Rattle.capability.specs.declared.PipelineHazardKind.TheVariants.{BranchFlush};
ghost use Rattle.model.specs.Traces.{trace_of, redirect_to, FETCH, WRITE};
ghost use Rattle.model.specs.State.{no_stats, log_of, count_cycle, count_flush, stall_all, with_stats, with_traces};
ghost use Rattle.stalls.specs.View.{form_kind, view_trace, listed, view_stats, view_log, TraceListOk, LogOk};
ghost use Rattle.stalls.specs.Promises.{NoRedirect, redirect_trace, Lists, Logs};

// A wait by numbers: places in the pool of the operation that waits and of the one waited for (80 for none), and a register's number, or a kind's.
#[derive(Clone, Copy)]
pub struct Trace {
    pub form: WaitForm,
    pub mine: u8,
    pub other: u8,
    pub number: u8,
}

// `target` is where the redirect of the cycle goes.
#[derive(Clone, Copy)]
pub struct TraceList {
    pub items: [Trace; 130],
    pub len: usize,
    pub target: u64,
}

// What a cycle tells: its waits, and the counters.
#[derive(Clone, Copy)]
pub struct Log {
    pub traces: TraceList,
    pub stats: PipelineStats,
}

// The hazard of a form.
#[tactic(auto, unfolding(crate::specs::View::form_kind))]
pub fn kind_of(form: WaitForm) -> PipelineHazardKind
    ensures { result ≡ form_kind form }
{
    match form {
        WaitForm::Overwrites => PipelineHazardKind::WriteAfterRead,
        WaitForm::WaitsFor | WaitForm::WaitsForOlder => PipelineHazardKind::ReadAfterWrite,
        WaitForm::BehindBranch | WaitForm::RedirectTo => PipelineHazardKind::BranchFlush,
        WaitForm::StillWrites => PipelineHazardKind::WriteAfterWrite,
        WaitForm::MemoryOrder | WaitForm::Drains | WaitForm::BehindSystem | WaitForm::AllBusy => {
            PipelineHazardKind::FunctionalUnitBusy
        }
    }
}

impl TraceList {
    #[tactic(auto, unfolding(crate::specs::View::listed))]
    pub fn new() -> TraceList
        ensures { Lists result [] 0 }
    {
        let none = Trace {
            form: WaitForm::Drains,
            mine: 80,
            other: 80,
            number: 0,
        };
        TraceList {
            items: [none; 130],
            len: 0,
            target: 0,
        }
    }

    #[tactic(auto, unfolding(crate::specs::View::listed))]
    pub fn as_slice(&self) -> &[Trace]
        requires { TraceListOk self.now }
        ensures { result.now ≡ listed self.now }
    {
        &self.items[..self.len]
    }

    // model: traces ++ (t ∷ [])
    #[tactic(auto, using(crate::proofs::Logged::take_pushed), unfolding(crate::specs::View::listed))]
    pub fn push(&mut self, trace: Trace)
        requires trace_list_ok { TraceListOk self.old }
        requires len_bound { self.old.len < 130 }
        ensures { Lists self.new (listed self.old ++ trace ∷ []) self.old.target }
    {
        self.items[self.len] = trace;
        self.len += 1;
    }
}

impl Log {
    #[tactic(auto, unfolding(crate::specs::View::listed, crate::specs::View::view_traces, crate::specs::View::view_log, crate::specs::View::view_stats))]
    pub fn new() -> Log
        ensures { Logs result [] 0 (λ f. log_of no_stats [] f.rows f.status) }
    {
        Log {
            traces: TraceList::new(),
            stats: PipelineStats::new(),
        }
    }

    #[tactic(auto, unfolding(crate::specs::View::listed, crate::specs::View::view_traces, crate::specs::View::view_log))]
    // A cycle opens: it is counted, and nothing is listed yet.
    pub fn open(&mut self)
        requires { LogOk self.old }
        ensures { Logs self.new [] self.old.traces.target (λ f. with_stats (count_cycle (view_stats self.old.stats)) (with_traces [] (view_log f self.old))) }
    {
        stats::count_cycle(&mut self.stats);
        self.traces.len = 0;
    }

    #[tactic(auto, using(crate::proofs::Logged::stalled), unfolding(crate::specs::View::view_traces, crate::specs::View::view_log))]
    // model: State.stall_all, of one
    pub fn stall(&mut self, trace: Trace)
        requires log_ok { LogOk self.old }
        requires len_bound { self.old.traces.len < 130 }
        ensures { Logs self.new (listed self.old.traces ++ trace ∷ []) self.old.traces.target (λ f. stall_all (view_trace f self.old.traces.target trace ∷ []) (view_log f self.old)) }
    {
        self.traces.push(trace);
        stats::count_stall(&mut self.stats, kind_of(trace.form));
    }

    // A redirect that drops so many queued operations: listed, and counted apart from other waits.
    // model: Issue.flush, of the log
    pub fn redirect(&mut self, target: u64, dropped: usize)
        requires log_ok { LogOk self.old }
        requires len_bound { self.old.traces.len < 130 }
        requires all { All NoRedirect (listed self.old.traces) }
        ensures { Logs self.new (listed self.old.traces ++ redirect_trace ∷ []) target (λ f. with_stats (count_flush dropped (view_stats self.old.stats)) (with_traces ((view_log f self.old).traces ++ trace_of BranchFlush WRITE FETCH (redirect_to target) ∷ []) (view_log f self.old))) }
    {
        self.traces.push(Trace {
            form: WaitForm::RedirectTo,
            mine: 80,
            other: 80,
            number: 0,
        });
        self.traces.target = target;
        stats::count_flush(&mut self.stats, dropped as u64);
    }
}
