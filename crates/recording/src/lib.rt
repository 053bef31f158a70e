// The timeline's cells of a cycle (ooo/scoreboard.rs, record_timeline and flush).
#![tactic(auto)]

ghost use Rattle.std.specs.Prelude.{map, ◌*◌, ◌≤◌, length};
ghost use Rattle.laws.specs.Lists.{keep};
ghost use Rattle.model.specs.Units.{is_busy};
ghost use Rattle.model.specs.Issue.{flushed_cell, queue_cell, unit_cell};
ghost use Rattle.timeline.specs.View.{WindowOk, TracksOk};
ghost use Rattle.flight.specs.View.{Legend, view_queue, QueueOk};
ghost use Rattle.bank.specs.View.{view_units, UnitsOk};
ghost use Rattle.recording.specs.Recorded.{Recorded, Written};

use bank::Units;
use flight::Queue;
use timeline::{Tracks, Window};

// An FL cell for each queued operation.
// model: push_all (map Issue.flushed_cell queue)
pub fn push_flushed(tracks: &mut Tracks, window: Window, queue: &Queue, cells: &mut [u8])
    requires window_ok { WindowOk window }
    requires tracks_ok { TracksOk tracks.old }
    requires queue_ok { QueueOk queue.now }
    requires history_in_bounds { window.history * 200 ≤ length cells.old }
    ensures tracks { (g : Legend) → Recorded window (map flushed_cell (view_queue g queue.now)) tracks.old tracks.new }
    ensures memory { (g : Legend) → Written window (map flushed_cell (view_queue g queue.now)) tracks.old cells.old cells.new }
{
    for q in queue.as_slice() {
        tracks.push(window, q.seq, 68, cells);
    }
}

// An IF cell for each queued operation.
// model: push_all (map Issue.queue_cell queue)
pub fn push_queue(tracks: &mut Tracks, window: Window, queue: &Queue, cells: &mut [u8])
    requires window_ok { WindowOk window }
    requires tracks_ok { TracksOk tracks.old }
    requires queue_ok { QueueOk queue.now }
    requires history_in_bounds { window.history * 200 ≤ length cells.old }
    ensures tracks { (g : Legend) → Recorded window (map queue_cell (view_queue g queue.now)) tracks.old tracks.new }
    ensures memory { (g : Legend) → Written window (map queue_cell (view_queue g queue.now)) tracks.old cells.old cells.new }
{
    for q in queue.as_slice() {
        tracks.push(window, q.seq, q.cell(), cells);
    }
}

// A cell for each busy unit.
// model: push_all (map Issue.unit_cell (keep is_busy units))
pub fn push_units(tracks: &mut Tracks, window: Window, units: &Units, cells: &mut [u8])
    requires window_ok { WindowOk window }
    requires tracks_ok { TracksOk tracks.old }
    requires units_ok { UnitsOk units.now }
    requires history_in_bounds { window.history * 200 ≤ length cells.old }
    ensures tracks { (g : Legend) → Recorded window (map unit_cell (keep is_busy (view_units g units.now))) tracks.old tracks.new }
    ensures memory { (g : Legend) → Written window (map unit_cell (keep is_busy (view_units g units.now))) tracks.old cells.old cells.new }
{
    for u in units.as_slice() {
        if u.busy {
            tracks.push(window, u.seq, u.cell(), cells);
        }
    }
}
