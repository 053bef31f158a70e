// Claims (PipelineRenameView), the queue, and the buffer, which this model has none of.
ghost use Rattle.std.specs.Prelude.{◌≡◌, length, option_map, slice_get};
ghost use Rattle.model.specs.Views.{slot_view, claims};
ghost use Rattle.registers.specs.View.{view_owed};
ghost use Rattle.occupants.specs.View.{view_slot};
ghost use Rattle.scoreboard.specs.View.{view_engine};
ghost use Rattle.scoreboard.specs.Valid.{Valid};

use occupants::{PipelineSlotView, queued_op, slot};
use registers::Owed;
use scoreboard::ScoreboardPipeline;

// PipelineDynamicInspect::rename_count
#[tactic(auto, unfolding(engine::specs::View::view_engine, board::specs::View::view_board, model::specs::Views::claims))]
pub fn rename_count(engine: &ScoreboardPipeline) -> usize
    requires { Valid engine.now }
    ensures { result ≡ length (claims (view_engine engine.now)) }
{
    engine.board.claims.outstanding_count()
}

// PipelineDynamicInspect::rename, by rising register: its number, and the unit that owes it.
#[tactic(auto, unfolding(engine::specs::View::view_engine, board::specs::View::view_board, model::specs::Views::claims))]
pub fn rename(engine: &ScoreboardPipeline, index: usize) -> Option<Owed>
    requires { Valid engine.now }
    ensures { option_map view_owed result ≡ slice_get (claims (view_engine engine.now)) index }
{
    engine.board.claims.outstanding(index)
}

// PipelineDynamicInspect::queue_count
#[tactic(auto, using(crate::proofs::Shows::queue_counted), unfolding(engine::specs::View::view_engine, board::specs::View::view_board))]
pub fn queue_count(engine: &ScoreboardPipeline) -> usize
    requires { Valid engine.now }
    ensures { result ≡ length (view_engine engine.now).queue }
{
    engine.board.queue.len
}

// PipelineDynamicInspect::queued
pub fn queued(engine: &ScoreboardPipeline, index: usize) -> Option<PipelineSlotView>
    requires { Valid engine.now }
    ensures { option_map view_slot result ≡ option_map slot_view (slice_get (view_engine engine.now).queue index) }
{
    slot(queued_op(&engine.board.queue, index), &engine.decoded)
}

// PipelineDynamicInspect::buffer_count
pub fn buffer_count() -> usize
    ensures { result ≡ 0 }
{
    0
}

// PipelineDynamicInspect::buffer_capacity
pub fn buffer_capacity() -> usize
    ensures { result ≡ 0 }
{
    0
}

// PipelineDynamicInspect::buffer_entry
pub fn buffer_entry(index: usize) -> Option<PipelineSlotView>
    ensures { option_map view_slot result ≡ None }
{
    None
}
