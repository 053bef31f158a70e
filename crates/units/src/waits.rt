// The sources that a unit waits for.
ghost use Rattle.std.specs.Prelude.{◌≡◌, not, ℕ, eqb, slice_get};
ghost use Rattle.std.specs.List.{list_any};
ghost use Rattle.laws.specs.Optional.{value_or};
ghost use Rattle.laws.specs.Lists.{keep};
ghost use Rattle.laws.specs.Means.{Means};
ghost use Rattle.registers.specs.View.{view_owed, view_waits, WaitsOk};

use registers::{Owed, Waits};

// Those that another unit owes.
// model: keep, in Units.without_waits
pub fn without(pending: &mut Waits, producer: u8)
    requires { WaitsOk pending.old }
    ensures { Means view_waits WaitsOk pending.new (keep (λ (p : ℕ × ℕ). not (eqb p.1 producer)) (view_waits pending.old)) }
{
    let mut kept = Waits::none();
    for owed in pending.as_slice() {
        if owed.unit != producer {
            kept.push(owed.register, owed.unit);
        }
    }
    *pending = kept;
}

// Is the register among these?
fn owes(waits: &[Owed], register: u8) -> bool
    ensures { result ≡ list_any (λ owed. eqb owed.register register) waits.now }
{
    waits.iter().any(|owed| owed.register == register)
}

// Is the register among them?
// model: any, in Write.reads
pub fn waits_for(pending: &Waits, register: u8) -> bool
    requires { WaitsOk pending.now }
    ensures { result ≡ list_any (λ (p : ℕ × ℕ). eqb p.0 register) (view_waits pending.now) }
{
    owes(pending.as_slice(), register)
}

// The first, or 0 and 0.
#[tactic(auto, using(crate::proofs::Pending::waits_first))]
// model: value_or (0, 0) (nth pending 0)
pub fn first(pending: &Waits) -> Owed
    requires { WaitsOk pending.now }
    ensures { view_owed result ≡ value_or (0, 0) (slice_get (view_waits pending.now) 0) }
{
    pending.as_slice().first().copied().unwrap_or(Owed {
        register: 0,
        unit: 0,
    })
}
