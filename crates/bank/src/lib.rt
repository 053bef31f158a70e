// The units of a machine (pipeline/ooo/scoreboard.rs).
#![tactic(auto)]

ghost use Rattle.std.specs.Prelude.{◌≡◌, [], ◌++◌, map, ◌+◌, ◌≤◌, ◌<◌, replicate, set};
ghost use Rattle.laws.specs.Lists.{modify, find_at};
ghost use Rattle.std.specs.List.{list_any};
ghost use Rattle.model.specs.Config.{capacities};
ghost use Rattle.model.specs.Issue.{is_free};
ghost use Rattle.model.specs.Units.{
  with_busy,
  clear,
  is_busy,
  clear_hazard,
  without_waits,
  tick,
  begin,
  read_one,
  occupy,
  instances,
  build_units,
};
ghost use Rattle.config.specs.View.{view_machine};
ghost use Rattle.config.specs.Kept.{MachineOk};
ghost use Rattle.registers.specs.View.{read, written, view_waits, WaitsOk};
ghost use Rattle.flight.specs.View.{Legend, view_queued, QueuedOk};
ghost use Rattle.bank.specs.View.{view_units, slots, places, UnitsOk, UnitsAre};

use config::Machine;
use flight::Queued;
use registers::Waits;
use units::Unit;

#[derive(Clone, Copy)]
pub struct Units {
    pub items: [Unit; 64],
    pub len: usize,
}

impl Units {
    #[tactic(auto, unfolding(crate::specs::View::view_units, crate::specs::View::places))]
    pub fn none() -> Units
        ensures { UnitsAre result (λ g. []) [] }
    {
        Units {
            items: [Unit::idle(0, 0); 64],
            len: 0,
        }
    }

    #[tactic(auto, unfolding(crate::specs::View::slots))]
    pub fn as_slice(&self) -> &[Unit]
        requires { UnitsOk self.now }
        ensures { result.now ≡ slots self.now }
    {
        &self.items[..self.len]
    }

    // n idle units of a kind more.
    // model: units ++ Units.instances spec 0 n
    fn add_instances(&mut self, spec: u8, n: u8)
        requires units_ok { UnitsOk self.old }
        requires n_bound { self.old.len + n ≤ 64 }
        requires spec_bound { spec < 16 }
        ensures { UnitsAre self.new (λ g. view_units g self.old ++ instances spec 0 n) (places self.old ++ replicate n 80) }
    {
        for i in 0..n {
            self.items[self.len] = Unit::idle(spec, i);
            self.len += 1;
        }
    }

    // model: Units.build_units 0
    pub fn build(machine: &Machine) -> Units
        requires { MachineOk machine.now }
        ensures { UnitsAre result (λ g. build_units 0 (view_machine machine.now).specs) (replicate (capacities (view_machine machine.now).specs) 80) }
    {
        let mut units = Units::none();
        for (spec, kind) in machine.specs[..machine.specs_len].iter().enumerate() {
            units.add_instances(spec as u8, kind.capacity);
        }
        units
    }

    // model: map clear
    pub fn clear(&mut self)
        requires { UnitsOk self.old }
        ensures { UnitsAre self.new (λ g. map clear (view_units g self.old)) (replicate self.old.len 80) }
    {
        for unit in &mut self.items[..self.len] {
            unit.clear();
        }
    }

    // model: any is_busy
    pub fn any_busy(&self) -> bool
        requires { UnitsOk self.now }
        ensures { (g : Legend) → result ≡ list_any is_busy (view_units g self.now) }
    {
        units::lent::busy_count(self.as_slice()) != 0
    }

    // model: modify i (with_busy busy)
    pub fn set_busy(&mut self, at: usize, busy: bool)
        requires units_ok { UnitsOk self.old }
        requires at_lt_len { at < self.old.len }
        ensures { UnitsAre self.new (λ g. modify at (with_busy busy) (view_units g self.old)) (places self.old) }
    {
        self.items[at].set_busy(busy);
    }

    // model: map clear_hazard
    pub fn clear_hazards(&mut self)
        requires { UnitsOk self.old }
        ensures { UnitsAre self.new (λ g. map clear_hazard (view_units g self.old)) (places self.old) }
    {
        for unit in &mut self.items[..self.len] {
            unit.clear_hazard();
        }
    }

    // model: map (without_waits i)
    fn without_waits(&mut self, producer: u8)
        requires { UnitsOk self.old }
        ensures { UnitsAre self.new (λ g. map (without_waits producer) (view_units g self.old)) (places self.old) }
    {
        for unit in &mut self.items[..self.len] {
            unit.without_waits(producer);
        }
    }

    // complete_write: the unit goes free, and no wait on it is left.
    // model: map (without_waits i) (modify i clear units)
    pub fn complete(&mut self, at: usize)
        requires units_ok { UnitsOk self.old }
        requires at_lt_len { at < self.old.len }
        ensures { UnitsAre self.new (λ g. map (without_waits at) (modify at clear (view_units g self.old))) (set (places self.old) at 80) }
    {
        self.items[at].clear();
        self.without_waits(at as u8);
    }

    // tick_execute, start_ready and read_operands, of each unit.
    // model: map read_one (map begin (map tick units))
    pub fn step(&mut self)
        requires { UnitsOk self.old }
        ensures { UnitsAre self.new (λ g. map read_one (map begin (map tick (view_units g self.old)))) (places self.old) }
    {
        for unit in &mut self.items[..self.len] {
            unit.step();
        }
    }

    // free_unit, the lowest of the kind.
    // model: find_at (is_free spec) 0
    pub fn free_unit(&self, spec: u8) -> Option<usize>
        requires { UnitsOk self.now }
        ensures { (g : Legend) → result ≡ find_at (is_free spec) 0 (view_units g self.now) }
    {
        for (i, unit) in self.as_slice().iter().enumerate() {
            if unit.is_free(spec) {
                return Some(i);
            }
        }
        None
    }

    // model: modify i (occupy ..)
    pub fn occupy(&mut self, at: usize, op: &Queued, pending: Waits)
        requires units_ok { UnitsOk self.old }
        requires at_lt_len { at < self.old.len }
        requires queued_ok { QueuedOk op.now }
        requires waits_ok { WaitsOk pending }
        ensures { UnitsAre self.new (λ g. modify at (occupy (view_queued g op.now) (read op.now.operands) (written op.now.operands) (view_waits pending)) (view_units g self.old)) (set (places self.old) at op.now.place) }
    {
        self.items[at].occupy(op, pending);
    }
}
