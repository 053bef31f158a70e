// The rest of a cycle (ooo/scoreboard.rs, advance), by parts.
#![tactic(auto)]

ghost use Rattle.std.specs.Prelude.{◌≡◌, ◌*◌, ◌≤◌, length};
ghost use Rattle.timeline.specs.View.{WindowOk, TracksOk};
ghost use Rattle.flight.specs.View.{Legend, view_queue, QueueOk};
ghost use Rattle.recording.specs.Recorded.{Recorded, Written};
ghost use Rattle.engine.specs.View.{invitation_answer};
ghost use Rattle.advancing.specs.Advance.{dropped_cells, held_after, Restable, Rests, RestWrites};

use board::Board;
use capability::Refusal;
use config::Machine;
use flight::Queue;
use registers::RegisterTable;
use timeline::{Tracks, Window};

// A redirect, if there is one, drops the queue: an FL cell for each operation of it, and only the names known are held.
// model: Issue.flush, its cells
#[tactic(auto, unfolding(model::specs::Timeline::push_all, model::specs::Timeline::push_all_writes, model::specs::Timeline::write_all))]
fn drop_queued(
    redirect: Option<u64>,
    queue: &Queue,
    window: Window,
    tracks: &mut Tracks,
    table: &mut RegisterTable,
    cells: &mut [u8],
)
    requires window_ok { WindowOk window }
    requires tracks_ok { TracksOk tracks.old }
    requires queue_ok { QueueOk queue.now }
    requires history_in_bounds { window.history * 200 ≤ length cells.old }
    ensures table { table.new ≡ held_after redirect table.old }
    ensures tracks { (g : Legend) → Recorded window (dropped_cells redirect (view_queue g queue.now)) tracks.old tracks.new }
    ensures memory { (g : Legend) → Written window (dropped_cells redirect (view_queue g queue.now)) tracks.old cells.old cells.new }
{
    if let Some(_) = redirect {
        recording::push_flushed(tracks, window, queue, cells);
        table.held = table.known;
    }
}

// The rest of a cycle, and the address to fetch from.
// model: Calls.after, Calls.answer and Calls.memory_after, of advance
pub fn advance(
    board: &mut Board,
    window: Window,
    tracks: &mut Tracks,
    machine: &Machine,
    table: &mut RegisterTable,
    redirect: Option<u64>,
    cells: &mut [u8],
) -> Result<Option<u64>, Refusal>
    requires { Restable board.old window tracks.old machine.now }
    ensures done { Rests board.old window tracks.old machine.now table.old redirect (length cells.old) (invitation_answer result) board.new tracks.new table.new }
    ensures memory { RestWrites board.old window tracks.old machine.now table.old redirect cells.old cells.new }
    ensures names { table.new.names ≡ table.old.names }
    ensures hints { table.new.hints ≡ table.old.hints }
{
    let offer = board.offer;
    checks::advance(
        board.front.in_cycle,
        offer.writing,
        offer.retired,
        cells.len(),
        window.history,
    )?;
    board.close();
    if board.front.stops() {
        return Ok(None);
    }
    drop_queued(redirect, &board.queue, window, tracks, table, cells);
    board.redirect(redirect);
    cycle::step(board);
    issuing::issue(board, machine);
    board.invite(machine.depth);
    recording::push_queue(tracks, window, &board.queue, cells);
    recording::push_units(tracks, window, &board.units, cells);
    table.known = board.claims.len;
    Ok(board.front.invited.then_some(board.fetch_pc))
}
