// What a cycle works on: units, queue, claims, the cycle's waits and counters, and the flags (pipeline/ooo/scoreboard.rs, ScoreboardPipeline).
#![tactic(auto)]

ghost use Rattle.std.specs.Prelude.{◌≡◌, false, ◌||◌, ◌≤◌, ◌<◌, replicate, Some};
ghost use Rattle.laws.specs.Lists.{All};
ghost use Rattle.model.specs.Write.{retire, retry, stopped, halt, fault};
ghost use Rattle.model.specs.Scoreboard.{may_fetch, invite, idle};
ghost use Rattle.op.specs.Chars.{view_text};
ghost use Rattle.stalls.specs.View.{listed};
ghost use Rattle.stalls.specs.Promises.{NoRedirect};
ghost use Rattle.bank.specs.View.{slots, places, UnitsOk, UnitKnows};
ghost use Rattle.board.specs.View.{Frame, view_board, BoardOk};
ghost use Rattle.board.specs.Promises.{
  no_front,
  no_offer,
  Fresh,
  Opens,
  Stays,
  Drops,
  Completes,
  Closes,
  Redirects,
  Invites,
};

use bank::Units;
use flight::Queue;
use op::Text;
use registers::Claims;
use stalls::Log;
use units::is_system;

// A branch, a system operation is in flight.
#[derive(Clone, Copy)]
pub struct Marks {
    pub branch: bool,
    pub system: bool,
}

// The unit whose result is on offer, and whether it was retired.
#[derive(Clone, Copy)]
pub struct Offer {
    pub writing: Option<usize>,
    pub retired: bool,
}

#[derive(Clone, Copy)]
pub struct Front {
    pub enabled: bool,
    pub halted: bool,
    pub faulted: bool,
    pub in_cycle: bool,
    pub invited: bool,
}

// `gone` is the place in the pool of the operation that left in this cycle, 80 for none: the cycle's waits may name it.
#[derive(Clone, Copy)]
pub struct Board {
    pub units: Units,
    pub fetch_pc: u64,
    pub queue: Queue,
    pub offer: Offer,
    pub claims: Claims,
    pub front: Front,
    pub log: Log,
    pub marks: Marks,
    pub gone: u8,
    pub status: Option<Text>,
}

impl Offer {
    fn none() -> Offer
        ensures { result ≡ no_offer }
    {
        Offer {
            writing: None,
            retired: false,
        }
    }
}

impl Front {
    fn new() -> Front
        ensures { result ≡ no_front }
    {
        Front {
            enabled: false,
            halted: false,
            faulted: false,
            in_cycle: false,
            invited: false,
        }
    }

    // model: Scoreboard.stops
    pub fn stops(self) -> bool
        ensures { result ≡ self.halted || self.faulted }
    {
        self.halted || self.faulted
    }
}

impl Board {
    // model: State.new
    pub fn new(units: Units, entry: u64) -> Board
        requires units_ok { UnitsOk units }
        requires units_value { places units ≡ replicate units.len 80 }
        requires all { All (UnitKnows 0) (slots units) }
        ensures { Fresh units entry result }
    {
        Board {
            units,
            fetch_pc: entry,
            queue: Queue::new(),
            offer: Offer::none(),
            claims: Claims::new(),
            front: Front::new(),
            log: Log::new(),
            marks: Marks {
                branch: false,
                system: false,
            },
            gone: 80,
            status: None,
        }
    }

    // Cycles rise by 1, the wait list and the hazards are cleared; a start ends an invitation.
    // model: Write.open_cycle
    pub fn open(&mut self)
        requires { BoardOk self.old }
        ensures { Opens self.old self.new }
    {
        self.units.clear_hazards();
        self.queue.clear_hazards();
        self.log.open();
        self.front.in_cycle = true;
        self.front.invited = false;
        self.gone = 80;
    }

    // model: Write.retire
    #[tactic(auto, using(crate::proofs::Parts::offer_branch, crate::proofs::Parts::looks_same), unfolding(crate::specs::View::boards, crate::specs::Promises::placing, stalls::specs::View::view_log, model::specs::Write::retire))]
    pub fn retire(&mut self, at: usize)
        requires board_ok { BoardOk self.old }
        requires offer { self.old.offer.writing ≡ Some at }
        ensures does { Stays self.old self.new retire }
        ensures units { self.new.units ≡ self.old.units }
    {
        stalls::stats::count_retired(&mut self.log.stats, self.units.items[at].redirects);
        self.offer.retired = true;
    }

    // model: Write.retry
    #[tactic(auto, using(crate::proofs::Parts::offer_inside))]
    pub fn retry(&mut self, at: usize, reason: Text)
        requires board_ok { BoardOk self.old }
        requires offer { self.old.offer.writing ≡ Some at }
        requires len_bound { reason.len ≤ 64 }
        ensures { Stays self.old self.new (retry (view_text reason)) }
    {
        self.units.set_busy(at, true);
        self.status = Some(reason);
        self.offer = Offer::none();
    }

    // model: Write.abandon, and the invitation ends; the status is a note
    fn stop(&mut self, note: Text)
        requires board_ok { BoardOk self.old }
        requires len_bound { note.len ≤ 64 }
        ensures { Drops self.old self.new (stopped false false (view_text note)) }
    {
        self.units.clear();
        self.queue.flush();
        self.claims.clear_claims();
        self.marks.branch = false;
        self.marks.system = false;
        self.offer = Offer::none();
        self.front.invited = false;
        self.status = Some(note);
    }

    // model: Write.halt
    pub fn halt(&mut self)
        requires { BoardOk self.old }
        ensures { Drops self.old self.new halt }
    {
        self.stop(Text::from_slice(b"halted"));
        self.front.halted = true;
    }

    // model: Write.fault
    #[tactic(auto, unfolding(crate::specs::View::boards, crate::specs::Promises::placing, stalls::specs::View::logs, model::specs::Write::writing))]
    pub fn fault(&mut self, note: Text)
        requires board_ok { BoardOk self.old }
        requires len_bound { note.len ≤ 64 }
        ensures { Drops self.old self.new (fault (view_text note)) }
    {
        self.stop(note);
        self.front.faulted = true;
    }

    // complete_write and the cycle's end.
    // model: Scoreboard.closed
    #[tactic(auto, using(crate::proofs::Parts::offer_inside, crate::proofs::Parts::looks_same, crate::proofs::Counting::named_units), unfolding(crate::specs::View::boards, crate::specs::Promises::placing, model::specs::Scoreboard::scoreboard, model::specs::Issue::issuing))]
    pub fn close(&mut self)
        requires { BoardOk self.old }
        ensures { Closes self.old self.new }
    {
        self.front.in_cycle = false;
        self.front.invited = false;
        if let Some(at) = self.offer.writing {
            self.complete(at);
        }
    }

    // model: Issue.complete_at
    #[tactic(auto, using(bank::proofs::Steps::unit_ok))]
    fn complete(&mut self, at: usize)
        requires board_ok { BoardOk self.old }
        requires at_lt_len { at < self.old.units.len }
        ensures { Completes self.old at self.new }
    {
        let u = self.units.items[at];
        self.units.complete(at);
        self.claims.release_all(u.operands.writes(), at as u8);
        self.marks.branch = !u.redirects && self.marks.branch;
        self.marks.system = !is_system(u.class) && self.marks.system;
        self.offer = Offer::none();
        self.gone = u.place;
    }

    // The status goes; on a redirect the queue too.
    // model: Issue.redirected, after Scoreboard.clear_status; the rows' cells aside
    #[tactic(auto, using(crate::proofs::Parts::looks_same), unfolding(crate::specs::View::boards, crate::specs::Promises::placing, stalls::specs::View::logs, model::specs::Issue::redirected, model::specs::Scoreboard::clear_status))]
    pub fn redirect(&mut self, redirect: Option<u64>)
        requires board_ok { BoardOk self.old }
        requires len_bound { self.old.log.traces.len ≤ 64 }
        requires all { All NoRedirect (listed self.old.log.traces) }
        ensures { Redirects self.old self.new redirect }
    {
        self.status = None;
        if let Some(target) = redirect {
            self.log.redirect(target, self.queue.len);
            self.queue.flush();
            self.fetch_pc = target;
        }
    }

    // model: Scoreboard.idle
    #[tactic(auto, using(crate::proofs::Parts::idle_so))]
    pub fn is_idle(&self) -> bool
        requires { BoardOk self.now }
        ensures { (x : Frame) → result ≡ idle (view_board x self.now) }
    {
        self.queue.len == 0 && !self.units.any_busy()
    }

    // model: Scoreboard.may_fetch
    #[tactic(auto, using(crate::proofs::Parts::fetch_so))]
    fn may_fetch(&self, depth: usize) -> bool
        requires { BoardOk self.now }
        ensures { (x : Frame) → x.machine.depth ≡ depth → result ≡ may_fetch (view_board x self.now) }
    {
        self.queue.len < depth && (self.front.enabled || self.is_idle())
    }

    // model: Scoreboard.invite
    #[tactic(auto, unfolding(crate::specs::View::boards, crate::specs::Promises::placing, model::specs::Scoreboard::invite))]
    pub fn invite(&mut self, depth: usize)
        requires { BoardOk self.old }
        ensures { Invites self.old depth self.new }
    {
        self.front.invited = self.may_fetch(depth);
    }
}
