// The texts: calls 39 to 48. The text stands behind the ten bytes that say whether it is there, and how long it is.
ghost use Rattle.std.specs.Prelude.{◌≡◌, true, List, ℕ, ◌+◌, ◌≤◌, ◌<◌, length};
ghost use Rattle.model.specs.Timeline.{splice};
ghost use Rattle.model.specs.Requests.{text_at};
ghost use Rattle.model.specs.Calls.{answer, buffer_after};
ghost use Rattle.traces.specs.Texts.{written};
ghost use Rattle.requests.specs.View.{view_place, view_field};
ghost use Rattle.scoreboard.specs.View.{view_engine};
ghost use Rattle.scoreboard.specs.Valid.{Valid};
ghost use Rattle.decoding.specs.Bytes.{byte_at};
ghost use Rattle.decoding.specs.Calls.{place_at, field_at, request_at, call_at, formed_at};
ghost use Rattle.answers.specs.Encode.{encode};
ghost use Rattle.answers.specs.Size.{size};

use answers::replies::put_written;
use capability::Refusal;
use decoding::parts::number_at;
use decoding::records::room_at;
use requests::{Field, Place};
use scoreboard::ScoreboardPipeline;

#[tactic(auto, unfolding(requests::specs::View::view_place, decoding::specs::Bytes::byte_at, decoding::specs::Calls::place_at))]
fn place_at(list: &[u8], at: usize) -> Place
    requires { at + 9 ≤ length list.now }
    ensures { view_place result ≡ place_at list.now at }
{
    let i = number_at(list, at + 1) as usize;
    match list[at] {
        0 => Place::Queue(i),
        1 => Place::Station(i),
        2 => Place::Stage(i),
        3 => Place::Kind(i),
        _ => Place::Offer,
    }
}

#[tactic(auto, unfolding(requests::specs::View::view_field, decoding::specs::Bytes::byte_at, decoding::specs::Calls::field_at))]
fn field_at(list: &[u8], at: usize) -> Field
    requires { at + 9 ≤ length list.now }
    ensures { view_field result ≡ field_at list.now at }
{
    let i = number_at(list, at + 1) as usize;
    match list[at] {
        0 => Field::Disassembly,
        1 => Field::Destination,
        2 => Field::Fault,
        3 => Field::Source(i),
        _ => Field::Write(i),
    }
}

// 39 to 43.
#[tactic(auto, unfolding(model::specs::Requests::text_at, decoding::specs::Bytes::byte_at, decoding::specs::Calls::request_at))]
fn ask_shown(
    engine: &ScoreboardPipeline,
    list: &[u8],
    at: usize,
    out: &mut [u8],
) -> Result<Option<usize>, Refusal>
    requires valid { Valid engine.now }
    requires at_value { formed_at list.now at ≡ true }
    requires bound { 39 ≤ byte_at list.now at }
    requires at_bound { byte_at list.now at < 44 }
    ensures answer { result ≡ written (length out.old) (text_at (view_engine engine.now) (request_at list.now at)) }
    ensures buffer { out.new ≡ buffer_after (view_engine engine.now) (request_at list.now at) out.old }
{
    let i = number_at(list, at + 1) as usize;
    match list[at] {
        39 => views::texts::status_message(engine, out),
        40 => {
            let place = place_at(list, at + 1);
            let field = field_at(list, at + 10);
            views::texts::slot_text(engine, place, field, out)
        }
        41 => views::texts::trace_detail(engine, i, out),
        42 => views::texts::row_disassembly(engine, i, out),
        _ => views::texts::stage_name(i, out),
    }
}

// 44 to 48.
#[tactic(auto, unfolding(model::specs::Requests::text_at, decoding::specs::Bytes::byte_at, decoding::specs::Calls::request_at))]
fn ask_named(
    engine: &ScoreboardPipeline,
    list: &[u8],
    at: usize,
    out: &mut [u8],
) -> Result<Option<usize>, Refusal>
    requires valid { Valid engine.now }
    requires at_value { formed_at list.now at ≡ true }
    requires bound { 44 ≤ byte_at list.now at }
    ensures answer { result ≡ written (length out.old) (text_at (view_engine engine.now) (request_at list.now at)) }
    ensures buffer { out.new ≡ buffer_after (view_engine engine.now) (request_at list.now at) out.old }
{
    let i = number_at(list, at + 1) as usize;
    match list[at] {
        44 => views::texts::unit_name(engine, i, out),
        45 => views::texts::station_label(engine, i, out),
        46 => views::texts::rename_register(engine, i, out),
        47 => views::texts::cell_label(engine, i, out),
        _ => {
            let slot = number_at(list, at + 9) as usize;
            views::texts::operand_register(engine, i, slot, out)
        }
    }
}

fn ask(
    engine: &ScoreboardPipeline,
    list: &[u8],
    at: usize,
    out: &mut [u8],
) -> Result<Option<usize>, Refusal>
    requires valid { Valid engine.now }
    requires at_value { formed_at list.now at ≡ true }
    requires bound { 39 ≤ byte_at list.now at }
    ensures answer { result ≡ written (length out.old) (text_at (view_engine engine.now) (request_at list.now at)) }
    ensures buffer { out.new ≡ buffer_after (view_engine engine.now) (request_at list.now at) out.old }
{
    if list[at] < 44 {
        return ask_shown(engine, list, at, out);
    }
    ask_named(engine, list, at, out)
}

// The text is written to its room; then what stands before it.
pub fn tell(engine: &ScoreboardPipeline, list: &[u8], at: usize, out: &mut [u8], b: usize)
    requires valid { Valid engine.now }
    requires at_value { formed_at list.now at ≡ true }
    requires bound { 39 ≤ byte_at list.now at }
    requires at_in_bounds { b + size (call_at list.now at) ≤ length out.old }
    ensures { (m : List ℕ) → out.new ≡ splice b (encode (answer (view_engine engine.now) m (call_at list.now at))) out.old }
{
    let n = room_at(list, at) as usize;
    let from = b + 10;
    let end = from + n;
    let w = ask(engine, list, at, &mut out[from..end]);
    put_written(out, b, w);
}
