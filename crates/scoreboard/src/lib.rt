// The scoreboard (pipeline/ooo/scoreboard.rs): making, and the driver's calls. Each call works on the engine where it stands, and a refusal leaves it as
// it was. The work behind a call, over the parts that it reads and changes, stands in crates/offering, advancing and fetching.
#![tactic(auto)]

use bank::Units;
use board::Board;
use capability::Refusal;
use config::{Machine, PipelineShape};
use engine::OfferView;
use flight::pool::{Decoded, DecodedPool, TextPool, Texts};
use op::{PipelineOp, Text};
use registers::RegisterTable;
use timeline::{RowTexts, Tracks, Window};

// Capacity, halt, fault, and both resets.
pub mod control;

ghost use Rattle.std.specs.Prelude.{◌≡◌, length};
ghost use Rattle.laws.specs.Means.{Means};
ghost use Rattle.model.specs.Calls.{make_memory, start, retire, retry, resolve, advance, fetch, memory_after};
ghost use Rattle.op.specs.Chars.{view_text};
ghost use Rattle.op.specs.View.{view_op};
ghost use Rattle.config.specs.View.{view_shape, view_machine};
ghost use Rattle.config.specs.Kept.{MachineOk};
ghost use Rattle.engine.specs.View.{done_answer, offer_answer, target_answer, invitation_answer};
ghost use Rattle.scoreboard.specs.View.{view_engine};
ghost use Rattle.scoreboard.specs.Valid.{Parts, Valid};
ghost use Rattle.scoreboard.specs.Calls.{new_state, Makes, Does};

// What a cycle works on comes first, then what a fetch writes. `window.next` is the number of the next operation, and the id of its row.
#[derive(Clone, Copy)]
pub struct ScoreboardPipeline {
    pub board: Board,
    pub window: Window,
    pub tracks: Tracks,
    pub decoded: DecodedPool,
    pub machine: Machine,
    pub table: RegisterTable,
    pub texts: TextPool,
    pub rows: RowTexts,
}

// model: State.new
fn new_engine(machine: Machine, entry: u64) -> ScoreboardPipeline
    requires { MachineOk machine }
    ensures { Means view_engine Parts result (new_state (view_machine machine) entry) }
{
    ScoreboardPipeline {
        board: Board::new(Units::build(&machine), entry),
        window: Window::new(machine.history),
        tracks: Tracks::new(),
        decoded: DecodedPool::new(),
        machine,
        table: RegisterTable::new(),
        texts: TextPool::new(),
        rows: RowTexts::new(),
    }
}

impl ScoreboardPipeline {
    // A new engine.
    // model: Calls.make and Calls.make_memory
    pub fn new(
        shape: &PipelineShape,
        entry: u64,
        cells: &mut [u8],
    ) -> Result<ScoreboardPipeline, Refusal>
        ensures made { Makes (view_shape shape.now) entry (length cells.old) result }
        ensures memory { cells.new ≡ make_memory (view_shape shape.now) cells.old }
    {
        shape.checked(cells.len())?;
        let machine = shape.machine();
        timeline::cells::clear(cells, machine.history);
        Ok(new_engine(machine, entry))
    }

    // Open a cycle and take the result that reaches the register file.
    pub fn start_cycle(&mut self) -> Result<Option<OfferView>, Refusal>
        requires { Valid self.old }
        ensures { Does self.old start (offer_answer result) self.new }
    {
        offering::start(&mut self.board, &self.decoded)
    }

    pub fn retire(&mut self) -> Result<(), Refusal>
        requires { Valid self.old }
        ensures { Does self.old retire (done_answer result) self.new }
    {
        offering::retire(&mut self.board)
    }

    // Put the offered operation back: the cycle is spent.
    pub fn retry(&mut self, reason: Text) -> Result<(), Refusal>
        requires { Valid self.old }
        ensures { Does self.old (retry (view_text reason)) (done_answer result) self.new }
    {
        offering::retry(&mut self.board, reason)
    }

    // Where the offered operation went, if not where the front end ran on to.
    pub fn resolve(&self, actual_next: u64) -> Result<Option<u64>, Refusal>
        requires { Valid self.now }
        ensures { Does self.now (resolve actual_next) (target_answer result) self.now }
    {
        offering::resolve(&self.board, &self.decoded, actual_next)
    }

    // The rest of the cycle, and the address to fetch from.
    pub fn advance(
        &mut self,
        redirect: Option<u64>,
        cells: &mut [u8],
    ) -> Result<Option<u64>, Refusal>
        requires { Valid self.old }
        ensures done { Does self.old (advance redirect (length cells.old)) (invitation_answer result) self.new }
        ensures memory { cells.new ≡ memory_after (view_engine self.old) (advance redirect (length cells.old)) cells.old }
    {
        advancing::advance(
            &mut self.board,
            self.window,
            &mut self.tracks,
            &self.machine,
            &mut self.table,
            redirect,
            cells,
        )
    }

    // Accept a decoded operation into the fetch queue.
    pub fn fetched(&mut self, op: &PipelineOp, cells: &mut [u8]) -> Result<(), Refusal>
        requires { Valid self.old }
        ensures done { Does self.old (fetch (view_op op.now) (length cells.old)) (done_answer result) self.new }
        ensures memory { cells.new ≡ memory_after (view_engine self.old) (fetch (view_op op.now) (length cells.old)) cells.old }
    {
        let place = fetching::fetch(
            &mut self.board,
            self.window,
            &mut self.tracks,
            &self.machine,
            &mut self.table,
            op,
            cells,
        )?;
        self.decoded.items[place] = Decoded::of(op, self.board.fetch_pc);
        self.texts.items[place] = Texts::of(op);
        self.rows.open(self.window, fetching::row_of(op));
        self.window.open();
        Ok(())
    }
}
