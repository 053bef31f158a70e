// The waits of a cycle, as the trace shows them.
ghost use Rattle.std.specs.Prelude.{◌≡◌, option_map, slice_get};
ghost use Rattle.model.specs.Views.{trace_view};
ghost use Rattle.stalls.specs.View.{Frame, form_from, form_to, view_traces, TraceListOk};
ghost use Rattle.inspect.specs.View.{view_trace};

use capability::PipelineTraceKind;
use stalls::{TraceList, kind_of};
use timeline::WaitForm;

#[derive(Clone, Copy)]
pub struct PipelineTraceView {
    pub kind: PipelineTraceKind,
    pub from_stage: u8,
    pub to_stage: u8,
}

// The stage that a wait leads from.
#[tactic(auto, unfolding(stalls::specs::View::form_from))]
fn from_of(form: WaitForm) -> u8
    ensures { result ≡ form_from form }
{
    match form {
        WaitForm::Overwrites | WaitForm::MemoryOrder | WaitForm::Drains => 2,
        WaitForm::WaitsFor | WaitForm::WaitsForOlder => 3,
        WaitForm::BehindBranch
        | WaitForm::BehindSystem
        | WaitForm::StillWrites
        | WaitForm::AllBusy => 1,
        WaitForm::RedirectTo => 4,
    }
}

// The stage that it leads to.
#[tactic(auto, unfolding(stalls::specs::View::form_to))]
fn to_of(form: WaitForm) -> u8
    ensures { result ≡ form_to form }
{
    match form {
        WaitForm::Overwrites | WaitForm::MemoryOrder | WaitForm::Drains => 4,
        WaitForm::WaitsFor | WaitForm::WaitsForOlder => 1,
        WaitForm::BehindBranch
        | WaitForm::BehindSystem
        | WaitForm::StillWrites
        | WaitForm::AllBusy
        | WaitForm::RedirectTo => 0,
    }
}

// model: Views.trace_view
pub fn trace_view(list: &TraceList, index: usize) -> Option<PipelineTraceView>
    requires { TraceListOk list.now }
    ensures { (f : Frame) → option_map view_trace result ≡ option_map trace_view (slice_get (view_traces f list.now) index) }
{
    let t = list.as_slice().get(index)?;
    Some(PipelineTraceView {
        kind: PipelineTraceKind::Hazard(kind_of(t.form)),
        from_stage: from_of(t.form),
        to_stage: to_of(t.form),
    })
}
