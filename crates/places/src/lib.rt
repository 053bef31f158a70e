// A place of the pool for a new operation.
#![tactic(auto)]

ghost use Rattle.std.specs.Prelude.{◌≡◌, List, ◌++◌, ◌∷◌, [], ℕ, ◌+◌, ◌≤◌, length};
ghost use Rattle.flight.specs.View.{QueueOk};
ghost use Rattle.bank.specs.View.{places, UnitsOk};
ghost use Rattle.places.specs.Places.{queue_places, Marked, Free};

use bank::Units;
use flight::Queue;

// Which places of the pool are taken.
#[derive(Drop)]
pub struct Places {
    pub used: [bool; 81],
}

impl Places {
    // Those of the units.
    fn of_units(units: &Units) -> Places
        requires { UnitsOk units.now }
        ensures { Marked (places units.now) result }
    {
        let mut places = Places { used: [false; 81] };
        for unit in units.as_slice() {
            places.used[unit.place as usize] = true;
        }
        places
    }

    // And those of the queue.
    fn and_queue(mut self, queue: &Queue) -> Places
        requires queue_ok { QueueOk queue.now }
        requires used_len { length self.used ≡ 81 }
        ensures { (l : List ℕ) → Marked l self → Marked (l ++ queue_places queue.now) result }
    {
        for op in queue.as_slice() {
            self.used[op.place as usize] = true;
        }
        self
    }

    // The first that is free: at most 78 operations are in flight, and one has just left.
    fn first_free(&self) -> usize
        requires { length self.now.used ≡ 81 }
        ensures { (l : List ℕ) → Marked l self.now → length l ≤ 79 → Free l result }
    {
        for i in 0..79 {
            if !self.used[i] {
                return i;
            }
        }
        79
    }
}

// A place of the pool that no operation in flight has, nor the one that left in this cycle.
pub fn free_place(units: &Units, queue: &Queue, gone: u8) -> usize
    requires units_ok { UnitsOk units.now }
    requires queue_ok { QueueOk queue.now }
    requires len_bound { units.now.len + queue.now.len ≤ 78 }
    requires gone_bound { gone ≤ 80 }
    ensures { Free ((places units.now ++ queue_places queue.now) ++ gone ∷ []) result }
{
    let mut places = Places::of_units(units).and_queue(queue);
    places.used[gone as usize] = true;
    places.first_free()
}
