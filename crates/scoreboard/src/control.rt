// Capacity, overlap, halt, fault, and both resets (ooo/scoreboard.rs, PipelineControl).
ghost use Rattle.std.specs.Prelude.{◌≡◌, length};
ghost use Rattle.model.specs.Calls.{capacity, overlap, halt, fault, reset, redirect, memory_after, done};
ghost use Rattle.op.specs.Chars.{view_text};
ghost use Rattle.config.specs.View.{view_machine};
ghost use Rattle.config.specs.Kept.{MachineOk};
ghost use Rattle.bank.specs.View.{UnitsOk};
ghost use Rattle.engine.specs.View.{done_answer};
ghost use Rattle.scoreboard.specs.View.{view_engine};
ghost use Rattle.scoreboard.specs.Valid.{Valid};
ghost use Rattle.scoreboard.specs.Calls.{Does};
ghost use Rattle.scoreboard.specs.Control.{Rebuilds, Renews};

use crate::ScoreboardPipeline;
use bank::Units;
use board::Board;
use capability::Refusal;
use config::Machine;
use op::Text;

// Where no unit is busy the units are built; else the capacity is only noted.
// model: Scoreboard.rebuilt
#[tactic(auto, unfolding(model::specs::Scoreboard::rebuilt))]
fn rebuild(units: &mut Units, machine: &Machine)
    requires units_ok { UnitsOk units.old }
    requires machine_ok { MachineOk machine.now }
    ensures { Rebuilds (view_machine machine.now) units.old units.new }
{
    if !units.any_busy() {
        *units = Units::build(machine);
    }
}

impl ScoreboardPipeline {
    // How many instances of a kind there are.
    pub fn set_capacity(&mut self, kind: usize, instances: u64) -> Result<(), Refusal>
        requires { Valid self.old }
        ensures { Does self.old (capacity kind instances) (done_answer result) self.new }
    {
        checks::capacity(self.board.front.in_cycle, &self.machine, kind, instances)?;
        self.machine.note(kind, instances);
        rebuild(&mut self.board.units, &self.machine);
        Ok(())
    }

    // The flag alone.
    pub fn set_enabled(&mut self, enabled: bool)
        requires { Valid self.old }
        ensures { Does self.old (overlap enabled) done self.new }
    {
        self.board.front.enabled = enabled;
    }

    pub fn halt(&mut self)
        requires { Valid self.old }
        ensures { Does self.old halt done self.new }
    {
        self.board.halt();
        self.table.held = self.table.known;
    }

    pub fn fault(&mut self, note: Text) -> Result<(), Refusal>
        requires { Valid self.old }
        ensures { Does self.old (fault (view_text note)) (done_answer result) self.new }
    {
        checks::fault(&note)?;
        self.board.fault(note);
        self.table.held = self.table.known;
        Ok(())
    }

    // An idle board of the machine's units, and no names. The overlap stays.
    fn renew(&mut self, address: u64)
        requires { Valid self.old }
        ensures { Renews self.old address self.new }
    {
        let overlap = self.board.front.enabled;
        self.board = Board::new(Units::build(&self.machine), address);
        self.board.front.enabled = overlap;
        self.table.known = 0;
        self.table.held = 0;
    }

    // PipelineControl::redirect: a reset that spares counters, rows and numbers.
    pub fn redirect(&mut self, address: u64)
        requires { Valid self.old }
        ensures { Does self.old (redirect address) done self.new }
    {
        let stats = self.board.log.stats;
        self.renew(address);
        self.board.log.stats = stats;
    }

    // PipelineControl::reset: the history goes too.
    pub fn reset(&mut self, address: u64, cells: &mut [u8]) -> Result<(), Refusal>
        requires { Valid self.old }
        ensures done { Does self.old (reset address (length cells.old)) (done_answer result) self.new }
        ensures memory { cells.new ≡ memory_after (view_engine self.old) (reset address (length cells.old)) cells.old }
    {
        checks::short(cells.len(), self.machine.history)?;
        timeline::cells::clear(cells, self.machine.history);
        self.renew(address);
        self.window.next = 0;
        self.window.held = 0;
        Ok(())
    }
}
