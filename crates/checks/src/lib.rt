// What calls are refused for, in the order that counts (model: Calls.checks).
#![tactic(auto, unfolding(model::specs::Calls::first_of))]

ghost use Rattle.std.specs.Prelude.{◌≡◌, ℕ, not, ◌&&◌, ◌||◌, [], ◌∷◌, ◌*◌, ◌≤◌, eqb, ltb, slice_get, Some, IfOk};
ghost use Rattle.laws.specs.Optional.{is_none};
ghost use Rattle.laws.specs.Numbers.{max64};
ghost use Rattle.capability.specs.Refusals.{refusal_number, refusal_of};
ghost use Rattle.model.specs.Config.{capacities};
ghost use Rattle.model.specs.Calls.{first_of, bad_text, bad_info, too_many};
ghost use Rattle.op.specs.Chars.{view_text};
ghost use Rattle.op.specs.View.{view_op};
ghost use Rattle.config.specs.View.{view_machine};
ghost use Rattle.config.specs.Checks.{noted_specs};
ghost use Rattle.config.specs.Kept.{MachineOk};

use capability::Refusal;
use config::Machine;
use op::{PipelineOp, Text};

// A refusal, where a test holds.
fn refuse(test: bool, refusal: Refusal) -> Result<(), Refusal>
    ensures { refusal_of result ≡ first_of ((refusal_number refusal, test) ∷ []) }
{
    if test { Err(refusal) } else { Ok(()) }
}

// 13: cell memory under 200 bytes a row.
pub fn short(lent: usize, history: usize) -> Result<(), Refusal>
    requires { history ≤ 256 }
    ensures { refusal_of result ≡ first_of ((13, ltb lent (history * 200)) ∷ []) }
{
    refuse(lent < history * 200, Refusal::ShortMemory)
}

// 4: in a cycle.
pub fn start(in_cycle: bool) -> Result<(), Refusal>
    ensures { refusal_of result ≡ first_of ((4, in_cycle) ∷ []) }
{
    refuse(in_cycle, Refusal::InCycle)
}

// 5, 6: not in a cycle, no offer; else the unit whose result is on offer.
pub fn resolve(in_cycle: bool, writing: Option<usize>) -> Result<usize, Refusal>
    ensures refusal { refusal_of result ≡ first_of ((5, not in_cycle) ∷ (6, is_none writing) ∷ []) }
    ensures unit { IfOk result (λ (at : ℕ). writing ≡ Some at) }
{
    refuse(!in_cycle, Refusal::NotInCycle)?;
    writing.ok_or(Refusal::NoOffer)
}

// 5, 6: an offer that was retired is none.
pub fn retire(in_cycle: bool, writing: Option<usize>, retired: bool) -> Result<usize, Refusal>
    ensures refusal { refusal_of result ≡ first_of ((5, not in_cycle) ∷ (6, is_none writing || retired) ∷ []) }
    ensures unit { IfOk result (λ (at : ℕ). writing ≡ Some at) }
{
    let at = resolve(in_cycle, writing)?;
    refuse(retired, Refusal::NoOffer)?;
    Ok(at)
}

// 5, 6, 2: also a bad reason.
pub fn retry(
    in_cycle: bool,
    writing: Option<usize>,
    retired: bool,
    reason: &Text,
) -> Result<usize, Refusal>
    ensures refusal { refusal_of result ≡ first_of ((5, not in_cycle) ∷ (6, is_none writing || retired) ∷ (2, bad_text 64 (view_text reason.now)) ∷ []) }
    ensures unit { IfOk result (λ (at : ℕ). writing ≡ Some at) }
{
    let at = retire(in_cycle, writing, retired)?;
    refuse(reason.is_bad(), Refusal::BadText)?;
    Ok(at)
}

// 5, 7, 13: not in a cycle, an offer not retired, short memory.
pub fn advance(
    in_cycle: bool,
    writing: Option<usize>,
    retired: bool,
    lent: usize,
    history: usize,
) -> Result<(), Refusal>
    requires { history ≤ 256 }
    ensures { refusal_of result ≡ first_of ((5, not in_cycle) ∷ (7, not (is_none writing) && not retired) ∷ (13, ltb lent (history * 200)) ∷ []) }
{
    refuse(!in_cycle, Refusal::NotInCycle)?;
    refuse(writing.is_some() && !retired, Refusal::Unsettled)?;
    short(lent, history)
}

// 4, 8, 2, 9, 11: of a fetch, before its names are counted.
pub fn fetch(in_cycle: bool, invited: bool, op: &PipelineOp, next: u64) -> Result<(), Refusal>
    ensures { refusal_of result ≡ first_of ((4, in_cycle) ∷ (8, not invited) ∷ (2, bad_info (view_op op.now).info) ∷ (9, too_many (view_op op.now).info) ∷ (11, eqb next max64) ∷ []) }
{
    refuse(in_cycle, Refusal::InCycle)?;
    refuse(!invited, Refusal::NotInvited)?;
    refuse(op.is_bad(), Refusal::BadText)?;
    refuse(op.too_many(), Refusal::TooManyNames)?;
    refuse(next == u64::MAX, Refusal::NumbersUsedUp)
}

// 2: a bad note.
pub fn fault(note: &Text) -> Result<(), Refusal>
    ensures { refusal_of result ≡ first_of ((2, bad_text 64 (view_text note.now)) ∷ []) }
{
    refuse(note.is_bad(), Refusal::BadText)
}

// 4, 12, 1: in a cycle, no such kind, too many units.
#[tactic(auto, unfolding(model::specs::Calls::first_of, config::specs::Checks::capacity_refusal, config::specs::Checks::capacity_checks))]
pub fn capacity(
    in_cycle: bool,
    machine: &Machine,
    kind: usize,
    instances: u64,
) -> Result<(), Refusal>
    requires { MachineOk machine.now }
    ensures { refusal_of result ≡ first_of ((4, in_cycle) ∷ (12, is_none (slice_get (view_machine machine.now).specs kind)) ∷ (1, ltb 64 (capacities (noted_specs kind instances (view_machine machine.now).specs))) ∷ []) }
{
    refuse(in_cycle, Refusal::InCycle)?;
    machine.capacity_refused(kind, instances)
}
