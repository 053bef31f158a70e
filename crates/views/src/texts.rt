// Text requests: each text that a view of the Rust shows, into a lent buffer. None where the index is past the end, before any check of the
// buffer; else 13 where the buffer is short, with nothing written.
#![tactic(auto, using(crate::proofs::Told::buffer_left), unfolding(model::specs::Requests::text_at, model::specs::Requests::operand_text, model::specs::Views::claims, engine::specs::View::view_engine, board::specs::View::known_names, board::specs::View::view_board, stalls::specs::View::view_log, stalls::specs::View::view_traces, stalls::specs::View::view_trace))]

ghost use Rattle.std.specs.Prelude.{◌≡◌, length, slice_get};
ghost use Rattle.model.specs.State.{State};
ghost use Rattle.model.specs.Requests.{
  status_message,
  slot_text,
  trace_detail,
  row_disassembly,
  stage_name,
  unit_name,
  station_label,
  rename_register,
  cell_label,
  operand_register,
  stage_names,
  text_at,
};
ghost use Rattle.model.specs.Calls.{buffer_after};
ghost use Rattle.traces.specs.Texts.{written};
ghost use Rattle.requests.specs.View.{view_place, view_field};
ghost use Rattle.scoreboard.specs.View.{view_engine};
ghost use Rattle.scoreboard.specs.Valid.{Valid};

use capability::Refusal;
use requests::{Field, Place};
use scoreboard::ScoreboardPipeline;
use traces::texts::write_text;

// PipelineInspect::status_message
pub fn status_message(engine: &ScoreboardPipeline, out: &mut [u8]) -> Result<Option<usize>, Refusal>
    requires { Valid engine.now }
    ensures answer { result ≡ written (length out.old) (text_at (view_engine engine.now) status_message) }
    ensures buffer { out.new ≡ buffer_after (view_engine engine.now) status_message out.old }
{
    words::write_maybe_text(&engine.board.status, out)
}

// A text of the operation shown at a place (PipelineSlotView).
pub fn slot_text(
    engine: &ScoreboardPipeline,
    place: Place,
    field: Field,
    out: &mut [u8],
) -> Result<Option<usize>, Refusal>
    requires { Valid engine.now }
    ensures answer { result ≡ written (length out.old) (text_at (view_engine engine.now) (slot_text (view_place place) (view_field field))) }
    ensures buffer { out.new ≡ buffer_after (view_engine engine.now) (slot_text (view_place place) (view_field field)) out.old }
{
    let op = requests::op_at(
        &engine.board.units,
        &engine.board.queue,
        engine.board.offer.writing,
        place,
    );
    requests::write_field(&op, &engine.texts, &engine.table, field, out)
}

// PipelineTraceView::detail
pub fn trace_detail(
    engine: &ScoreboardPipeline,
    index: usize,
    out: &mut [u8],
) -> Result<Option<usize>, Refusal>
    requires { Valid engine.now }
    ensures answer { result ≡ written (length out.old) (text_at (view_engine engine.now) (trace_detail index)) }
    ensures buffer { out.new ≡ buffer_after (view_engine engine.now) (trace_detail index) out.old }
{
    requests::write_detail(
        &engine.board.log.traces,
        &engine.texts,
        &engine.table,
        &engine.machine,
        index,
        out,
    )
}

// PipelineTimelineRow::disassembly
pub fn row_disassembly(
    engine: &ScoreboardPipeline,
    index: usize,
    out: &mut [u8],
) -> Result<Option<usize>, Refusal>
    requires { Valid engine.now }
    ensures answer { result ≡ written (length out.old) (text_at (view_engine engine.now) (row_disassembly index)) }
    ensures buffer { out.new ≡ buffer_after (view_engine engine.now) (row_disassembly index) out.old }
{
    words::write_maybe_text(&engine.rows.disassembly(engine.window, index), out)
}

// PipelineStageView::name, of any engine
#[tactic(auto, using(crate::proofs::Told::buffer_left), unfolding(model::specs::Requests::text_at, model::specs::Requests::stage_names, laws::specs::Texts::bytes, laws::specs::Texts::utf8))]
pub fn stage_name(index: usize, out: &mut [u8]) -> Result<Option<usize>, Refusal>
    ensures answer { result ≡ written (length out.old) (slice_get stage_names index) }
    ensures buffer { (s : State) → out.new ≡ buffer_after s (stage_name index) out.old }
{
    match index {
        0 => write_text(b"IF", out),
        1 => write_text(b"IS", out),
        2 => write_text(b"RO", out),
        3 => write_text(b"EX", out),
        4 => write_text(b"WR", out),
        _ => Ok(None),
    }
}

// PipelineUnitView::name
pub fn unit_name(
    engine: &ScoreboardPipeline,
    index: usize,
    out: &mut [u8],
) -> Result<Option<usize>, Refusal>
    requires { Valid engine.now }
    ensures answer { result ≡ written (length out.old) (text_at (view_engine engine.now) (unit_name index)) }
    ensures buffer { out.new ≡ buffer_after (view_engine engine.now) (unit_name index) out.old }
{
    words::write_spec_name(&engine.machine, index, out)
}

// PipelineStationView::name: the kind's name and the number within the kind
pub fn station_label(
    engine: &ScoreboardPipeline,
    index: usize,
    out: &mut [u8],
) -> Result<Option<usize>, Refusal>
    requires { Valid engine.now }
    ensures answer { result ≡ written (length out.old) (text_at (view_engine engine.now) (station_label index)) }
    ensures buffer { out.new ≡ buffer_after (view_engine engine.now) (station_label index) out.old }
{
    requests::named::write_station_label(&engine.board.units, &engine.machine, index, out)
}

// PipelineRenameView::register
pub fn rename_register(
    engine: &ScoreboardPipeline,
    index: usize,
    out: &mut [u8],
) -> Result<Option<usize>, Refusal>
    requires { Valid engine.now }
    ensures answer { result ≡ written (length out.old) (text_at (view_engine engine.now) (rename_register index)) }
    ensures buffer { out.new ≡ buffer_after (view_engine engine.now) (rename_register index) out.old }
{
    requests::named::write_claim(&engine.board.claims, &engine.table, index, out)
}

// PipelineTimelineCell::label, of the label's number
pub fn cell_label(
    engine: &ScoreboardPipeline,
    label: usize,
    out: &mut [u8],
) -> Result<Option<usize>, Refusal>
    requires { Valid engine.now }
    ensures answer { result ≡ written (length out.old) (text_at (view_engine engine.now) (cell_label label)) }
    ensures buffer { out.new ≡ buffer_after (view_engine engine.now) (cell_label label) out.old }
{
    words::write_cell_label(&engine.machine, label, out)
}

// PipelineOperandView::register
pub fn operand_register(
    engine: &ScoreboardPipeline,
    station: usize,
    slot: usize,
    out: &mut [u8],
) -> Result<Option<usize>, Refusal>
    requires { Valid engine.now }
    ensures answer { result ≡ written (length out.old) (text_at (view_engine engine.now) (operand_register station slot)) }
    ensures buffer { out.new ≡ buffer_after (view_engine engine.now) (operand_register station slot) out.old }
{
    requests::named::write_operand(&engine.board.units, &engine.table, station, slot, out)
}
