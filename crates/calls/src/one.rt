// Any call: its answer is laid over bytes of 0.
ghost use Rattle.std.specs.Prelude.{◌≡◌, take};
ghost use Rattle.scoreboard.specs.View.{view_engine};
ghost use Rattle.scoreboard.specs.Valid.{Valid};
ghost use Rattle.decoding.specs.Calls.{call_at};
ghost use Rattle.calls.specs.Play.{lent_of, cells_after};
ghost use Rattle.calls.specs.Steps.{Playable, Plays};

use crate::driven::{control, cycle};
use crate::measures::lent_at;
use crate::shown::show;
use crate::texts::tell;
use scoreboard::ScoreboardPipeline;

// The first bytes of the cell memory are lent, as many as the call says, and those behind them stay. From 12 on the engine and the cell memory stay.
#[tactic(auto, unfolding(decoding::specs::Bytes::byte_at))]
pub fn play(
    engine: &mut ScoreboardPipeline,
    list: &[u8],
    at: usize,
    cells: &mut [u8],
    out: &mut [u8],
    b: usize,
)
    requires valid { Valid engine.old }
    requires playable { Playable list.now at cells.old b out.old }
    ensures plays { let c = call_at list.now at in Plays c b engine.old (take (lent_of c) cells.old) out.old engine.new (take (lent_of c) cells.new) out.new }
    ensures memory { cells.new ≡ cells_after (view_engine engine.old) (call_at list.now at) cells.old }
{
    let tag = list[at];
    let lent = lent_at(list, at) as usize;
    if tag < 6 {
        cycle(engine, list, at, &mut cells[..lent], out, b);
    } else if tag < 12 {
        control(engine, list, at, &mut cells[..lent], out, b);
    } else if tag < 39 {
        show(engine, list, at, cells, out, b);
    } else {
        tell(engine, list, at, out, b);
    }
}
