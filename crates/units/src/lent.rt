// Questions about units in a row: how many are busy, and which busy one has the least number.
ghost use Rattle.std.specs.Prelude.{◌≡◌};
ghost use Rattle.units.specs.Lent.{busy_count, oldest_busy};

use super::Unit;

// The busy unit of the least number so far: where it stands, and its number.
#[derive(Clone, Copy)]
pub struct Best {
    pub at: usize,
    pub seq: u64,
}

// How many are busy.
#[tactic(auto, unfolding(crate::specs::Lent::busy_count))]
pub fn busy_count(units: &[Unit]) -> usize
    ensures { result ≡ busy_count units.now }
{
    units.iter().filter(|unit| unit.busy).count()
}

// The place of the busy unit of the least number, the first of equals.
pub fn oldest_busy(units: &[Unit]) -> Option<usize>
    ensures { result ≡ oldest_busy units.now }
{
    let mut best: Option<Best> = None;
    for (at, unit) in units.iter().enumerate() {
        if unit.busy && best.is_none_or(|b| unit.seq < b.seq) {
            best = Some(Best { at, seq: unit.seq });
        }
    }
    best.map(|b| b.at)
}
