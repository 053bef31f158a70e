// The run of the program `forecast`: it drives the engine by its calls alone. Each invitation takes a line, every offer is retired, and it ends when the
// lines are used up and nothing is in flight.
#![tactic(auto)]

ghost use Rattle.std.specs.Prelude.{◌≡◌, ◌≤◌, ◌<◌, length, drop};
ghost use Rattle.model.specs.Forecast.{forecast_shape, lent_of, turn, forecast_run, fuel_for, going};
ghost use Rattle.config.specs.View.{view_shape};
ghost use Rattle.scoreboard.specs.View.{view_engine};
ghost use Rattle.scoreboard.specs.Valid.{Valid};
ghost use Rattle.driving.specs.Runs.{Runs, line_taken, Cycles, Goes};

use capability::{PipelineStageRole, Refusal};
use config::{PipelineShape, PipelineTiming, StageSpec, UnitSpec};
use lines::read_line;
use scoreboard::ScoreboardPipeline;

// How a run stands.
#[derive(Clone, Copy)]
pub enum Standing {
    Running,
    // The lines are used up, and nothing is in flight.
    Finished,
    // A line was refused.
    Refused(Refusal),
}

// A run: where the input that is left starts, how many lines were taken, and how it stands.
#[derive(Clone, Copy)]
pub struct Going {
    pub at: usize,
    pub lines: u64,
    pub stands: Standing,
}

// model: Forecast.forecast_shape
pub fn forecast_shape() -> PipelineShape
    ensures { view_shape result ≡ forecast_shape }
{
    let fetch = StageSpec {
        role: PipelineStageRole::Fetch,
    };
    let decode = StageSpec {
        role: PipelineStageRole::Decode,
    };
    let execute = StageSpec {
        role: PipelineStageRole::Execute,
    };
    let mut stages = [fetch; 16];
    stages[1] = decode;
    stages[2] = execute;
    let mut unit = UnitSpec::generic();
    unit.capacity = 2;
    let timing = PipelineTiming::default();
    PipelineShape {
        stages,
        stages_len: 3,
        instruction_bytes: None,
        timing,
        units: [unit; 16],
        units_len: 1,
        history: 256,
    }
}

// A cycle up to its invitation: its offer, if there is one, is retired.
// model: Forecast.cycle
fn cycle(engine: &mut ScoreboardPipeline, cells: &mut [u8])
    requires { Valid engine.old }
    ensures { Cycles engine.old cells.old engine.new cells.new }
{
    // Either may be refused, and then leaves the engine as it is: a start while a cycle is open, a retire where nothing is on offer.
    let _ = engine.start_cycle();
    let _ = engine.retire();
    // Refused where the lent memory is short.
    let _ = engine.advance(None, cells);
}

// The line at the run's place is fetched, where it is one.
// model: Forecast.take_parsed
fn take_line(engine: &mut ScoreboardPipeline, run: &mut Going, input: &[u8], cells: &mut [u8])
    requires valid { Valid engine.old }
    requires running { Runs input.now run.old }
    requires at_in_bounds { run.old.at < length input.now }
    requires input_len_bound { length input.now ≤ 65536 }
    ensures { Goes input.now (line_taken input.now run.old.at run.old.lines (lent_of (view_engine engine.old) cells.old)) engine.new run.new cells.new }
{
    let read = read_line(input, run.at, engine.board.fetch_pc);
    run.at = read.next;
    run.lines += 1;
    let Some(op) = read.op else {
        run.stands = Standing::Refused(Refusal::BadForm);
        return;
    };
    if let Err(refusal) = engine.fetched(&op, cells) {
        run.stands = Standing::Refused(refusal);
    }
}

// It ends when the lines are used up and nothing is in flight, or where a line is refused; a line is read only when an invitation takes it.
// model: Forecast.turn, cycle_and_line
fn turn(engine: &mut ScoreboardPipeline, run: &mut Going, input: &[u8], cells: &mut [u8])
    requires valid { Valid engine.old }
    requires running { Runs input.now run.old }
    requires input_len_bound { length input.now ≤ 65536 }
    ensures { Goes input.now (turn (lent_of (view_engine engine.old) cells.old) (drop run.old.at input.now) run.old.lines) engine.new run.new cells.new }
{
    if run.at == input.len() && engine.board.is_idle() {
        run.stands = Standing::Finished;
        return;
    }
    cycle(engine, cells);
    if engine.board.front.invited && run.at < input.len() {
        take_line(engine, run, input, cells);
    }
}

// So many turns at most: the fuel is never the reason to stop.
// model: Forecast.forecast_run, fuel_for
pub fn run(engine: &mut ScoreboardPipeline, input: &[u8], cells: &mut [u8]) -> Going
    requires valid { Valid engine.old }
    requires input_len_bound { length input.now ≤ 65536 }
    ensures { Goes input.now (forecast_run (fuel_for input.now) (going (lent_of (view_engine engine.old) cells.old) input.now 0)) engine.new result cells.new }
{
    let mut run = Going {
        at: 0,
        lines: 0,
        stands: Standing::Running,
    };
    for _turn in 0..100 * (input.len() + 1) {
        turn(engine, &mut run, input, cells);
        if !matches!(run.stands, Standing::Running) {
            break;
        }
    }
    run
}
