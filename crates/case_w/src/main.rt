// Case W on the engine's code, driven as `forecast` drives its machine: EX of capacity 3, depth 2, overlap on, mul extra 2, others 0; a multiply
// writes x2; b alu reads x2, x1; c alu writes x1. A line for each offer, with its cycle, then the stalls of the run.
// The file stdout is document 01's: a in cycle 8, b in 11, c in 12; RAW 4, WAR 2.
#![tactic(auto)]

ghost use Rattle.std.specs.Prelude.{◌≡◌, length};
ghost use Rattle.scoreboard.specs.Valid.{Valid};

use capability::{PipelineInstructionClass, PipelineStageRole};
use config::{PipelineShape, UnitSpec};
use op::{Name, PipelineOp, Text};
use scoreboard::ScoreboardPipeline;
use std::io;

// ── The machine and its operations ──────────────────────────────────────────

fn machine() -> PipelineShape {
    let mut shape = PipelineShape::empty();
    shape.stages[0].role = PipelineStageRole::Fetch;
    shape.stages[1].role = PipelineStageRole::Decode;
    shape.stages[2].role = PipelineStageRole::Execute;
    shape.stages_len = 3;
    shape.units[0] = UnitSpec {
        capacity: 3,
        ..UnitSpec::generic()
    };
    shape.units_len = 1;
    shape.timing.mul = 2;
    shape.history = 4;
    shape
}

// The operation of a number: a, b, c. Each has four bytes.
fn operation_at(number: u64, address: u64) -> PipelineOp {
    let x1 = Name::from_slice(b"x1");
    let x2 = Name::from_slice(b"x2");
    let alu = PipelineInstructionClass::Alu;
    let multiply = PipelineInstructionClass::Multiply;
    let op = match number {
        0 => PipelineOp::new(address, Text::from_slice(b"a"), multiply, 0).also_writes(x2),
        1 => PipelineOp::new(address, Text::from_slice(b"b"), alu, 0)
            .reading(x2)
            .reading(x1),
        _ => PipelineOp::new(address, Text::from_slice(b"c"), alu, 0).also_writes(x1),
    };
    op.with_length(4)
}

// ── The run ─────────────────────────────────────────────────────────────────

// The first half of a cycle: what is offered is told, and retired.
fn offered(rt: &impl Print, engine: &mut ScoreboardPipeline) -> io::Result<()>
    requires { Valid engine.old }
    ensures { Valid engine.new }
{
    let Ok(Some(offer)) = engine.start_cycle() else {
        return Ok(());
    };
    let cycle = engine.board.log.stats.cycles;
    let _ = engine.retire();
    println!(rt; "operation {} in cycle {cycle}", offer.seq)
}

// The second half: of three operations the next is fetched where one is invited.
fn advanced(engine: &mut ScoreboardPipeline, cells: &mut [u8])
    requires { Valid engine.old }
    ensures valid { Valid engine.new }
    ensures size { length cells.new ≡ length cells.old }
{
    let number = engine.window.next;
    match engine.advance(None, cells) {
        Ok(Some(address)) if number < 3 => {
            let _ = engine.fetched(&operation_at(number, address), cells);
        }
        _ => {}
    }
}

fn main(rt: HostRuntime) -> io::Result<()> {
    let mut cells = [255u8; 800];
    let Ok(mut engine) = ScoreboardPipeline::new(&machine(), 0, &mut cells) else {
        return Ok(());
    };
    engine.set_enabled(true);
    for _ in 0..16 {
        offered(&rt, &mut engine)?;
        advanced(&mut engine, &mut cells);
    }
    let stats = engine.board.log.stats;
    println!(rt; "RAW {}, WAR {}", stats.raw_stalls, stats.war_stalls)
}
