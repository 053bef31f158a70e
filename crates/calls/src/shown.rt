// The views: calls 12 to 38. Each lays down its answer from a place on and hands back the next place.
#![tactic(auto, unfolding(model::specs::Calls::show, decoding::specs::Calls::plain_view, decoding::specs::Calls::indexed_view, answers::specs::Size::size_of_view))]

ghost use Rattle.std.specs.Prelude.{◌≡◌, ◌+◌, ◌≤◌, ◌<◌, length, take};
ghost use Rattle.model.specs.Calls.{shown_number, show, answer};
ghost use Rattle.traces.specs.Texts.{Laid};
ghost use Rattle.scoreboard.specs.View.{view_engine};
ghost use Rattle.scoreboard.specs.Valid.{Valid};
ghost use Rattle.decoding.specs.Bytes.{byte_at};
ghost use Rattle.decoding.specs.Calls.{plain_view, indexed_view, call_at};
ghost use Rattle.answers.specs.Encode.{encode};
ghost use Rattle.answers.specs.Size.{size_of_view};
ghost use Rattle.calls.specs.Play.{lent_of};
ghost use Rattle.calls.specs.Steps.{Playable};

use answers::parts::put_shown;
use answers::shown::{
    put_cell_answer, put_edges, put_flag_answer, put_number_answer, put_stages, put_stats,
    put_status,
};
use decoding::parts::number_at;
use scoreboard::ScoreboardPipeline;

// 15 to 17: addresses, and how many stages.
fn address_or_stages(engine: &ScoreboardPipeline, tag: u8) -> u64
    requires valid { Valid engine.now }
    requires le_tag { 15 ≤ tag }
    requires tag_bound { tag < 18 }
    ensures { shown_number result ≡ show (view_engine engine.now) (plain_view tag) }
{
    match tag {
        15 => views::questions::fetch_pc(engine),
        16 => views::questions::resume_pc(engine),
        _ => views::stages::stage_count() as u64,
    }
}

// 21 to 24.
fn count_units(engine: &ScoreboardPipeline, tag: u8) -> usize
    requires valid { Valid engine.now }
    requires le_tag { 21 ≤ tag }
    requires tag_bound { tag < 25 }
    ensures { shown_number result ≡ show (view_engine engine.now) (plain_view tag) }
{
    match tag {
        21 => views::kinds::unit_count(engine),
        22 => views::waits::trace_count(engine),
        23 => views::history::timeline_len(engine),
        _ => views::stations::station_count(engine),
    }
}

// 25 to 28.
fn count_waiting(engine: &ScoreboardPipeline, tag: u8) -> usize
    requires valid { Valid engine.now }
    requires le_tag { 25 ≤ tag }
    requires tag_bound { tag < 29 }
    ensures { shown_number result ≡ show (view_engine engine.now) (plain_view tag) }
{
    match tag {
        25 => views::claims::rename_count(engine),
        26 => views::claims::queue_count(engine),
        27 => views::claims::buffer_count(),
        _ => views::claims::buffer_capacity(),
    }
}

// 15 to 17 and 21 to 28.
fn number_of(engine: &ScoreboardPipeline, tag: u8) -> u64
    requires valid { Valid engine.now }
    requires le_tag { 15 ≤ tag }
    requires tag_bound { tag < 29 }
    requires le_tag_2 { 18 ≤ tag → 21 ≤ tag }
    ensures { shown_number result ≡ show (view_engine engine.now) (plain_view tag) }
{
    if tag < 18 {
        return address_or_stages(engine, tag);
    }
    if tag < 25 {
        return count_units(engine, tag) as u64;
    }
    count_waiting(engine, tag) as u64
}

// 18 to 20: lists that are the same of every engine.
fn show_list(engine: &ScoreboardPipeline, tag: u8, out: &mut [u8], b: usize) -> usize
    requires le_tag { 18 ≤ tag }
    requires tag_bound { tag < 21 }
    requires tag_in_bounds { b + size_of_view (plain_view tag) ≤ length out.old }
    ensures { Laid b (encode (show (view_engine engine.now) (plain_view tag))) out.old out.new result }
{
    match tag {
        18 => put_edges(out, b, views::stages::edges()),
        19 => put_stages(out, b, &views::stages::entry_stages()),
        _ => put_stages(out, b, &views::stages::stage_order()),
    }
}

// 12 to 28: views without an index.
fn show_plain(engine: &ScoreboardPipeline, tag: u8, out: &mut [u8], b: usize) -> usize
    requires valid { Valid engine.now }
    requires le_tag { 12 ≤ tag }
    requires tag_bound { tag < 29 }
    requires tag_in_bounds { b + size_of_view (plain_view tag) ≤ length out.old }
    ensures { Laid b (encode (show (view_engine engine.now) (plain_view tag))) out.old out.new result }
{
    match tag {
        12 => put_status(out, b, views::status(engine)),
        13 => put_stats(out, b, views::stats(engine)),
        14 => put_flag_answer(out, b, views::questions::enabled(engine)),
        18..=20 => show_list(engine, tag, out, b),
        _ => put_number_answer(out, b, number_of(engine, tag)),
    }
}

// 29 to 33.
fn show_indexed(engine: &ScoreboardPipeline, tag: u8, index: u64, out: &mut [u8], b: usize) -> usize
    requires valid { Valid engine.now }
    requires le_tag { 29 ≤ tag }
    requires tag_bound { tag < 34 }
    requires index_in_bounds { b + size_of_view (indexed_view tag index) ≤ length out.old }
    ensures { Laid b (encode (show (view_engine engine.now) (indexed_view tag index))) out.old out.new result }
{
    let i = index as usize;
    match tag {
        29 => put_flag_answer(out, b, views::questions::in_flight_before(engine, index)),
        30 => put_shown(out, b, views::stages::stage(engine, i)),
        31 => put_shown(out, b, views::kinds::unit(engine, i)),
        32 => put_shown(out, b, views::waits::trace(engine, i)),
        _ => put_shown(out, b, views::history::timeline_row(engine, i)),
    }
}

// 34 to 37.
fn show_held(engine: &ScoreboardPipeline, tag: u8, index: u64, out: &mut [u8], b: usize) -> usize
    requires valid { Valid engine.now }
    requires le_tag { 34 ≤ tag }
    requires tag_bound { tag < 38 }
    requires index_in_bounds { b + size_of_view (indexed_view tag index) ≤ length out.old }
    ensures { Laid b (encode (show (view_engine engine.now) (indexed_view tag index))) out.old out.new result }
{
    let i = index as usize;
    match tag {
        34 => put_shown(out, b, views::stations::station(engine, i)),
        35 => put_shown(out, b, views::claims::rename(engine, i)),
        36 => put_shown(out, b, views::claims::queued(engine, i)),
        _ => put_shown(out, b, views::claims::buffer_entry(i)),
    }
}

// 38, from the cell memory that it is lent.
fn show_cell(
    engine: &ScoreboardPipeline,
    list: &[u8],
    at: usize,
    cells: &[u8],
    out: &mut [u8],
    b: usize,
) -> usize
    requires valid { Valid engine.now }
    requires playable { Playable list.now at cells.now b out.old }
    requires at_value { byte_at list.now at ≡ 38 }
    ensures { Laid b (encode (answer (view_engine engine.now) (take (lent_of (call_at list.now at)) cells.now) (call_at list.now at))) out.old out.new result }
{
    let row = number_at(list, at + 1) as usize;
    let index = number_at(list, at + 9) as usize;
    let n = number_at(list, at + 17) as usize;
    put_cell_answer(
        out,
        b,
        views::history::timeline_cell(engine, row, index, &cells[..n]),
    )
}

// Any of them.
pub fn show(
    engine: &ScoreboardPipeline,
    list: &[u8],
    at: usize,
    cells: &[u8],
    out: &mut [u8],
    b: usize,
) -> usize
    requires valid { Valid engine.now }
    requires playable { Playable list.now at cells.now b out.old }
    requires bound { 12 ≤ byte_at list.now at }
    requires at_bound { byte_at list.now at < 39 }
    ensures { Laid b (encode (answer (view_engine engine.now) (take (lent_of (call_at list.now at)) cells.now) (call_at list.now at))) out.old out.new result }
{
    let tag = list[at];
    if tag < 29 {
        return show_plain(engine, tag, out, b);
    }
    if tag == 38 {
        return show_cell(engine, list, at, cells, out, b);
    }
    let index = number_at(list, at + 1);
    if tag < 34 {
        return show_indexed(engine, tag, index, out, b);
    }
    show_held(engine, tag, index, out, b)
}
