// Every view of an engine, in a line each, as it passes through five states: idle; rows evicted; a capacity noted while a unit is busy, and built
// later; during an offer; halted. A number stands for a class, a role, a phase, a hazard; `-` where there is none.
// The file stdout is the Rust's own output (harness/src/bin/view_cases.rs).
#![tactic(auto)]

ghost use Rattle.std.specs.Prelude.{◌≡◌, length};
ghost use Rattle.scoreboard.specs.Valid.{Valid};

use capability::{PipelineInstructionClass, PipelineStageRole, Refusal};
use config::{KindName, PipelineShape, UnitSpec};
use inspect::stations::PipelineOperandView;
use occupants::PipelineSlotView;
use op::{Name, PipelineOp, Text};
use requests::{Field, Place};
use scoreboard::ScoreboardPipeline;
use std::io;

// ── Words ───────────────────────────────────────────────────────────────────

fn say(rt: &impl Print, s: &[u8]) -> io::Result<()> {
    rt.write_all(b" ")?;
    rt.write_all(s)
}

fn end(rt: &impl Print) -> io::Result<()> {
    rt.write_all(b"\n")
}

fn told(rt: &impl Print, written: Result<Option<usize>, Refusal>, out: &[u8]) -> io::Result<()> {
    match written {
        Ok(Some(size)) => say(rt, &out[..size.min(out.len())]),
        _ => say(rt, b"-"),
    }
}

fn flag(rt: &impl Print, b: bool) -> io::Result<()> {
    if b { say(rt, b"yes") } else { say(rt, b"no") }
}

fn index(rt: &impl Print, index: Option<u8>) -> io::Result<()> {
    match index {
        Some(n) => print!(rt; " {n}"),
        None => say(rt, b"-"),
    }
}

// ── An operation (PipelineSlotView) ─────────────────────────────────────────

fn field(rt: &impl Print, engine: &ScoreboardPipeline, place: Place, f: Field) -> io::Result<()>
    requires { Valid engine.now }
{
    let mut out = [0u8; 64];
    let w = views::texts::slot_text(engine, place, f, &mut out);
    told(rt, w, &out)
}

fn texts(rt: &impl Print, engine: &ScoreboardPipeline, place: Place) -> io::Result<()>
    requires { Valid engine.now }
{
    field(rt, engine, place, Field::Disassembly)?;
    field(rt, engine, place, Field::Destination)?;
    field(rt, engine, place, Field::Source(0))?;
    field(rt, engine, place, Field::Source(1))
}

fn numbers(rt: &impl Print, s: PipelineSlotView) -> io::Result<()> {
    print!(rt; " {} {}", s.address, s.class.as_usize())?;
    flag(rt, s.bubble)?;
    flag(rt, s.speculative)?;
    flag(rt, s.predicted_taken)?;
    index(rt, s.hazard.map(|hazard| u8::from(hazard)))?;
    flag(rt, s.atomic)?;
    print!(rt; " {}", s.cycles_remaining)
}

fn slot(
    rt: &impl Print,
    engine: &ScoreboardPipeline,
    shown: Option<PipelineSlotView>,
    place: Place,
) -> io::Result<()>
    requires { Valid engine.now }
{
    match shown {
        Some(s) => {
            numbers(rt, s)?;
            texts(rt, engine, place)?;
        }
        None => say(rt, b"-")?,
    }
    end(rt)
}

// ── Views at an index: no line past the end ─────────────────────────────────

fn stage(rt: &impl Print, engine: &ScoreboardPipeline, i: usize) -> io::Result<()>
    requires { Valid engine.now }
{
    let mut out = [0u8; 8];
    let Some(s) = views::stages::stage(engine, i) else {
        return Ok(());
    };
    rt.write_all(b"stage")?;
    let name = views::texts::stage_name(i, &mut out);
    told(rt, name, &out)?;
    print!(rt; " {}", u8::from(s.role))?;
    slot(rt, engine, s.slot, Place::Stage(i))
}

fn unit(rt: &impl Print, engine: &ScoreboardPipeline, i: usize) -> io::Result<()>
    requires { Valid engine.now }
{
    let mut out = [0u8; 8];
    let Some(k) = views::kinds::unit(engine, i) else {
        return Ok(());
    };
    rt.write_all(b"unit")?;
    let name = views::texts::unit_name(engine, i, &mut out);
    told(rt, name, &out)?;
    let class = k.latency_class.as_usize();
    print!(rt; " {} {} {} {}", k.capacity, k.active, class, k.latency)?;
    slot(rt, engine, k.first, Place::Kind(i))
}

fn operand(
    rt: &impl Print,
    engine: &ScoreboardPipeline,
    station: usize,
    at: usize,
    shown: Option<PipelineOperandView>,
) -> io::Result<()>
    requires { Valid engine.now }
{
    let mut out = [0u8; 16];
    let Some(o) = shown else {
        return say(rt, b"-");
    };
    let register = views::texts::operand_register(engine, station, at, &mut out);
    told(rt, register, &out)?;
    index(rt, o.producer)
}

fn station(rt: &impl Print, engine: &ScoreboardPipeline, i: usize) -> io::Result<()>
    requires { Valid engine.now }
{
    let mut out = [0u8; 16];
    let Some(s) = views::stations::station(engine, i) else {
        return Ok(());
    };
    rt.write_all(b"station")?;
    let label = views::texts::station_label(engine, i, &mut out);
    told(rt, label, &out)?;
    print!(rt; " {} {}", s.unit, u8::from(s.phase))?;
    index(rt, s.tag)?;
    operand(rt, engine, i, 0, s.operand_0)?;
    operand(rt, engine, i, 1, s.operand_1)?;
    slot(rt, engine, s.slot, Place::Station(i))
}

fn trace(rt: &impl Print, engine: &ScoreboardPipeline, i: usize) -> io::Result<()>
    requires { Valid engine.now }
{
    let mut out = [0u8; 256];
    let Some(t) = views::waits::trace(engine, i) else {
        return Ok(());
    };
    print!(rt;
        "trace {} {} {}",
        u8::from(t.kind),
        t.from_stage,
        t.to_stage
    )?;
    let detail = views::texts::trace_detail(engine, i, &mut out);
    told(rt, detail, &out)?;
    end(rt)
}

fn rename(rt: &impl Print, engine: &ScoreboardPipeline, i: usize) -> io::Result<()>
    requires { Valid engine.now }
{
    let mut out = [0u8; 16];
    let Some(o) = views::claims::rename(engine, i) else {
        return Ok(());
    };
    rt.write_all(b"rename")?;
    let register = views::texts::rename_register(engine, i, &mut out);
    told(rt, register, &out)?;
    println!(rt; " {}", o.unit)
}

fn queued(rt: &impl Print, engine: &ScoreboardPipeline, i: usize) -> io::Result<()>
    requires { Valid engine.now }
{
    let shown = views::claims::queued(engine, i);
    if shown.is_none() {
        return Ok(());
    }
    rt.write_all(b"queued")?;
    slot(rt, engine, shown, Place::Queue(i))
}

fn cell(
    rt: &impl Print,
    engine: &ScoreboardPipeline,
    row: usize,
    i: usize,
    cells: &[u8],
) -> io::Result<()>
    requires { Valid engine.now }
{
    let mut out = [0u8; 8];
    let Ok(Some(c)) = views::history::timeline_cell(engine, row, i, cells) else {
        return say(rt, b"-");
    };
    let label = views::texts::cell_label(engine, c.label as usize, &mut out);
    told(rt, label, &out)?;
    print!(rt; " {} {}", u8::from(c.state), u8::from(c.role))
}

fn row(rt: &impl Print, engine: &ScoreboardPipeline, i: usize, cells: &[u8]) -> io::Result<()>
    requires { Valid engine.now }
{
    let mut out = [0u8; 64];
    let Some(r) = views::history::timeline_row(engine, i) else {
        return Ok(());
    };
    let class = r.class.as_usize();
    print!(rt; "row {} {} {} {}", r.address, class, r.first_cycle, r.cells)?;
    flag(rt, r.atomic)?;
    let text = views::texts::row_disassembly(engine, i, &mut out);
    told(rt, text, &out)?;
    for k in 0..r.cells as usize {
        cell(rt, engine, i, k, cells)?;
    }
    end(rt)
}

// ── The engine as a whole ───────────────────────────────────────────────────

fn status(rt: &impl Print, engine: &ScoreboardPipeline) -> io::Result<()>
    requires { Valid engine.now }
{
    let mut out = [0u8; 64];
    let s = views::status(engine);
    rt.write_all(b"status")?;
    flag(rt, s.enabled)?;
    flag(rt, s.sequential)?;
    flag(rt, s.halted)?;
    flag(rt, s.faulted)?;
    let message = views::texts::status_message(engine, &mut out);
    told(rt, message, &out)?;
    end(rt)
}

fn stats(rt: &impl Print, engine: &ScoreboardPipeline) -> io::Result<()>
    requires { Valid engine.now }
{
    let c = views::stats(engine);
    let counters = [
        c.cycles,
        c.committed,
        c.stalls,
        c.raw_stalls,
        c.load_use_stalls,
        c.branch_stalls,
        c.functional_unit_stalls,
        c.memory_stalls,
        c.waw_stalls,
        c.war_stalls,
        c.flushes,
        c.branches,
    ];
    rt.write_all(b"stats")?;
    for counter in counters {
        print!(rt; " {counter}")?;
    }
    end(rt)
}

fn counts(rt: &impl Print, engine: &ScoreboardPipeline) -> io::Result<()>
    requires { Valid engine.now }
{
    let counts = [
        views::kinds::unit_count(engine),
        views::waits::trace_count(engine),
        views::history::timeline_len(engine),
        views::stations::station_count(engine),
        views::claims::rename_count(engine),
        views::claims::queue_count(engine),
    ];
    rt.write_all(b"counts")?;
    for count in counts {
        print!(rt; " {count}")?;
    }
    end(rt)
}

fn questions(rt: &impl Print, engine: &ScoreboardPipeline) -> io::Result<()>
    requires { Valid engine.now }
{
    rt.write_all(b"next")?;
    flag(rt, views::questions::enabled(engine))?;
    let fetch_pc = views::questions::fetch_pc(engine);
    let resume_pc = views::questions::resume_pc(engine);
    print!(rt; " {fetch_pc} {resume_pc}")?;
    flag(rt, views::questions::in_flight_before(engine, 1))?;
    flag(rt, views::questions::in_flight_before(engine, 2))?;
    end(rt)
}

fn show(rt: &impl Print, state: &str, engine: &ScoreboardPipeline, cells: &[u8]) -> io::Result<()>
    requires { Valid engine.now }
{
    println!(rt; "{state}")?;
    status(rt, engine)?;
    stats(rt, engine)?;
    counts(rt, engine)?;
    questions(rt, engine)?;
    for i in 0..6 {
        stage(rt, engine, i)?;
        unit(rt, engine, i)?;
        station(rt, engine, i)?;
        trace(rt, engine, i)?;
        rename(rt, engine, i)?;
        queued(rt, engine, i)?;
        row(rt, engine, i, cells)?;
    }
    Ok(())
}

// What no engine changes.

fn edges(rt: &impl Print) -> io::Result<()> {
    let list = views::stages::edges();
    rt.write_all(b"edges")?;
    for edge in &list.items {
        print!(rt; " {} {} {}", edge.from, edge.to, u8::from(edge.kind))?;
    }
    end(rt)
}

fn orders(rt: &impl Print) -> io::Result<()> {
    print!(rt; "stages {}", views::stages::stage_count())?;
    for stage in views::stages::entry_stages() {
        print!(rt; " {stage}")?;
    }
    for stage in views::stages::stage_order() {
        print!(rt; " {stage}")?;
    }
    let count = views::claims::buffer_count();
    print!(rt; " {} {}", count, views::claims::buffer_capacity())?;
    if views::claims::buffer_entry(0).is_none() {
        say(rt, b"-")?;
    }
    end(rt)
}

// ── The machine and its operations ──────────────────────────────────────────

// MUL takes multiplications alone; two of EX take every class.
#[tactic(auto, unfolding(capability::specs::Numbers::class_number))]
fn machine() -> PipelineShape {
    let multiply = PipelineInstructionClass::Multiply;
    let mut shape = PipelineShape::empty();
    let mut classes = [false; 10];
    classes[multiply.as_usize()] = true;
    shape.stages[2].role = PipelineStageRole::Execute;
    shape.stages_len = 3;
    shape.units[0] = UnitSpec {
        name: KindName::from_slice(b"MUL"),
        classes,
        latency_class: multiply,
        capacity: 1,
    };
    shape.units[1] = UnitSpec {
        capacity: 2,
        ..UnitSpec::generic()
    };
    shape.units_len = 2;
    shape.timing.mul = 2;
    shape.history = 2;
    shape
}

// A slow one that writes x2; one that reads x2 and x1; two that write x1.
fn operation_at(number: u64, address: u64) -> PipelineOp {
    let x1 = Name::from_slice(b"x1");
    let x2 = Name::from_slice(b"x2");
    match number {
        0 => {
            let text = Text::from_slice(b"mul x2");
            let op = PipelineOp::new(address, text, PipelineInstructionClass::Multiply, 0);
            op.writing(x2).with_length(4)
        }
        1 => {
            let text = Text::from_slice(b"use x2, x1");
            let op = PipelineOp::new(address, text, PipelineInstructionClass::Store, 0);
            op.reading(x2).reading(x1).with_length(4).atomic()
        }
        _ => {
            let text = Text::from_slice(b"set x1");
            let op = PipelineOp::new(address, text, PipelineInstructionClass::Alu, 0);
            op.writing(x1).with_length(4)
        }
    }
}

// ── The run ─────────────────────────────────────────────────────────────────

// The first half of a cycle: what is offered is retired.
fn started(engine: &mut ScoreboardPipeline)
    requires { Valid engine.old }
    ensures { Valid engine.new }
{
    let offer = engine.start_cycle();
    if matches!(offer, Ok(Some(_))) {
        let _ = engine.retire();
    }
}

// The second half: of four operations the next is fetched where one is invited.
fn advanced(engine: &mut ScoreboardPipeline, cells: &mut [u8])
    requires { Valid engine.old }
    ensures valid { Valid engine.new }
    ensures size { length cells.new ≡ length cells.old }
{
    let number = engine.window.next;
    match engine.advance(None, cells) {
        Ok(Some(address)) if number < 4 => {
            let _ = engine.fetched(&operation_at(number, address), cells);
        }
        _ => {}
    }
}

fn run(engine: &mut ScoreboardPipeline, cycles: usize, cells: &mut [u8])
    requires { Valid engine.old }
    ensures valid { Valid engine.new }
    ensures size { length cells.new ≡ length cells.old }
{
    for _ in 0..cycles {
        started(engine);
        advanced(engine, cells);
    }
}

// Up to the offer: idle, rows evicted, a capacity noted.
fn busy(rt: &impl Print, engine: &mut ScoreboardPipeline, cells: &mut [u8]) -> io::Result<()>
    requires { Valid engine.old }
    ensures { Valid engine.new }
{
    engine.set_enabled(true);
    show(rt, "idle", engine, cells)?;
    run(engine, 5, cells);
    show(rt, "evicted", engine, cells)?;
    run(engine, 1, cells);
    let _ = engine.set_capacity(0, 2);
    show(rt, "noted", engine, cells)?;
    run(engine, 1, cells);
    Ok(())
}

// From the offer on: halted, and built anew.
fn stopped(rt: &impl Print, engine: &mut ScoreboardPipeline, cells: &mut [u8]) -> io::Result<()>
    requires { Valid engine.old }
{
    let _ = engine.start_cycle();
    show(rt, "offer", engine, cells)?;
    let _ = engine.retire();
    advanced(engine, cells);
    run(engine, 2, cells);
    engine.halt();
    show(rt, "halted", engine, cells)?;
    engine.redirect(64);
    show(rt, "built", engine, cells)
}

fn main(rt: HostRuntime) -> io::Result<()> {
    let mut cells = [255u8; 400];
    edges(&rt)?;
    orders(&rt)?;
    let Ok(mut engine) = ScoreboardPipeline::new(&machine(), 0, &mut cells) else {
        return Ok(());
    };
    busy(&rt, &mut engine, &mut cells)?;
    stopped(&rt, &mut engine, &mut cells)
}
