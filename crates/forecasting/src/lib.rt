// The program `forecast` as a function on lent slices.
#![tactic(auto)]

ghost use Rattle.std.specs.Prelude.{◌≡◌, ◌*◌, ◌≤◌, min, length, take};
ghost use Rattle.laws.specs.Texts.{Text};
ghost use Rattle.model.specs.Forecast.{printed, forecast_answer, forecast_memory, forecast_out};
ghost use Rattle.traces.specs.Texts.{Laid};
ghost use Rattle.scoreboard.specs.Valid.{Valid};
ghost use Rattle.driving.specs.Runs.{view_run};
ghost use Rattle.forecasting.specs.View.{view_outcome, answered, bytes_printed};

use capability::Refusal;
use driving::{Going, Standing};
use scoreboard::ScoreboardPipeline;
use traces::texts::write_text;

// model: Forecast.printed
fn put_run(page: &mut [u8], engine: &ScoreboardPipeline, run: &Going, cells: &[u8]) -> usize
    requires valid { Valid engine.now }
    requires history_in_bounds { engine.now.window.history * 200 ≤ length cells.now }
    requires in_bounds { 524288 ≤ length page.old }
    ensures text { (input : Text) → Laid 0 (printed (view_run input engine.now run.now cells.now)) page.old page.new result }
    ensures most { result ≤ 524288 }
{
    match run.stands {
        Standing::Running => 0,
        Standing::Finished => {
            let e = engine;
            let n = pages::put_rows(page, 0, &e.machine, e.window, &e.tracks, &e.rows, cells);
            pages::put_totals(page, n, e.board.log.stats)
        }
        Standing::Refused(refusal) => pages::put_refused(page, 0, run.lines, u8::from(refusal)),
    }
}

// How many bytes were laid down, in `out`.
#[tactic(auto, unfolding(crate::specs::View::view_outcome, crate::specs::View::answered))]
fn answered(written: Result<Option<usize>, Refusal>) -> Result<usize, Refusal>
    ensures { view_outcome result ≡ answered written }
{
    written.map(|size| size.unwrap_or(0))
}

// The bytes printed, or a refusal: of cells under 51,200 bytes; then of an `out` that is short. Excess input is line 0, and leaves the cells.
// model: Forecast.forecast_answer, forecast_memory, forecast_out
pub fn forecast(input: &[u8], cells: &mut [u8], out: &mut [u8]) -> Result<usize, Refusal>
    ensures answer { view_outcome result ≡ forecast_answer input.now cells.old out.old }
    ensures memory { cells.new ≡ forecast_memory input.now cells.old }
    ensures text { out.new ≡ forecast_out input.now cells.old out.old }
{
    if cells.len() < 51200 {
        return Err(Refusal::ShortMemory);
    }
    let mut page = [0u8; 524288];
    if 65536 < input.len() {
        let n = pages::put_refused(&mut page, 0, 0, 14);
        return answered(write_text(&page[..n], out));
    }
    let mut engine = ScoreboardPipeline::new(&driving::forecast_shape(), 0, cells)?;
    engine.set_enabled(true);
    let run = driving::run(&mut engine, input, cells);
    let n = put_run(&mut page, &engine, &run, cells);
    answered(write_text(&page[..n], out))
}

// How much of a lent `out` was printed, for a program to write. (`most` and `part` follow from `count`; they are what lending that part asks.)
#[tactic(auto, unfolding(crate::specs::View::view_outcome, crate::specs::View::bytes_printed))]
pub fn printed_len(answer: Result<usize, Refusal>, out: &[u8]) -> usize
    ensures count { result ≡ min (bytes_printed (view_outcome answer)) (length out.now) }
    ensures most { result ≤ length out.now }
    ensures part { result ≡ length (take result out.now) }
{
    answer.unwrap_or(0).min(out.len())
}
