// Claims: who owes each register its next value.
ghost use Rattle.std.specs.Prelude.{◌≡◌, [], ◌∷◌, ◌++◌, map, ℕ, ◌≤◌, ◌<◌, length, take, replicate, slice_get, Option, option_map};
ghost use Rattle.laws.specs.Means.{Means};
ghost use Rattle.model.specs.Registers.{pad, producer_of, claim, claim_all, release, release_all, outstanding};
ghost use Rattle.model.specs.Issue.{taken, waits_on};
ghost use Rattle.registers.specs.View.{view_claims, ClaimsOk, view_owed, view_waits, WaitsOk};

use super::{Claims, Owed, Waits};

impl Claims {
    #[tactic(auto, unfolding(crate::specs::View::view_claims))]
    pub fn new() -> Claims
        ensures { Means view_claims ClaimsOk result [] }
    {
        Claims {
            unit: [None; 256],
            len: 0,
        }
    }

    // At least so many registers: nobody owes a new one.
    pub fn pad(&mut self, len: usize)
        requires claims_ok { ClaimsOk self.old }
        requires len_bound { len ≤ 256 }
        ensures { Means view_claims ClaimsOk self.new (pad (view_claims self.old) (replicate len [])) }
    {
        self.len = self.len.max(len);
    }

    #[tactic(auto, unfolding(crate::specs::View::view_claims, model::specs::Registers::producer_of))]
    pub fn producer(&self, register: usize) -> Option<u8>
        requires { ClaimsOk self.now }
        ensures { result ≡ producer_of (view_claims self.now) register }
    {
        self.unit[..self.len].get(register).copied().flatten()
    }

    // Who held the register before.
    pub fn claim(&mut self, register: usize, unit: u8) -> Option<u8>
        requires { ClaimsOk self.old }
        ensures after { Means view_claims ClaimsOk self.new (claim unit (view_claims self.old) register) }
        ensures before { result ≡ producer_of (view_claims self.old) register }
    {
        let before = self.producer(register);
        if register < self.len {
            self.unit[register] = Some(unit);
        }
        before
    }

    #[tactic(auto, unfolding(model::specs::Registers::claim_all))]
    pub fn claim_all(&mut self, registers: &[u8], unit: u8)
        requires { ClaimsOk self.old }
        ensures { Means view_claims ClaimsOk self.new (claim_all unit (view_claims self.old) registers.now) }
    {
        for r in registers {
            self.claim(usize::from(*r), unit);
        }
    }

    // Only if that unit holds it.
    pub fn release(&mut self, register: usize, unit: u8)
        requires { ClaimsOk self.old }
        ensures { Means view_claims ClaimsOk self.new (release unit (view_claims self.old) register) }
    {
        if register < self.len && self.unit[register] == Some(unit) {
            self.unit[register] = None;
        }
    }

    #[tactic(auto, unfolding(model::specs::Registers::release_all))]
    pub fn release_all(&mut self, registers: &[u8], unit: u8)
        requires { ClaimsOk self.old }
        ensures { Means view_claims ClaimsOk self.new (release_all unit (view_claims self.old) registers.now) }
    {
        for r in registers {
            self.release(usize::from(*r), unit);
        }
    }

    // Nobody owes anything any more.
    pub fn clear_claims(&mut self)
        requires { ClaimsOk self.old }
        ensures { Means view_claims ClaimsOk self.new (map (λ (p : Option ℕ). None) (view_claims self.old)) }
    {
        self.unit = [None; 256];
    }

    // How many registers are claimed.
    #[tactic(auto, using(crate::proofs::Owing::outstanding_length), unfolding(crate::specs::View::view_claims))]
    pub fn outstanding_count(&self) -> usize
        requires { ClaimsOk self.now }
        ensures { result ≡ length (outstanding 0 (view_claims self.now)) }
    {
        self.unit[..self.len].iter().filter(|u| u.is_some()).count()
    }

    // The claim at a place of their list, by rising number.
    #[tactic(auto, unfolding(crate::specs::View::view_claims, crate::specs::View::view_owed, model::specs::Registers::outstanding))]
    pub fn outstanding(&self, index: usize) -> Option<Owed>
        requires { ClaimsOk self.now }
        ensures { option_map view_owed result ≡ slice_get (outstanding 0 (view_claims self.now)) index }
    {
        let mut left = index;
        for (i, owner) in self.unit[..self.len].iter().enumerate() {
            if let Some(unit) = *owner {
                if left == 0 {
                    return Some(Owed {
                        register: i as u8,
                        unit,
                    });
                }
                left -= 1;
            }
        }
        None
    }

    // The first of these destinations that somebody in flight writes.
    #[tactic(auto, unfolding(model::specs::Issue::taken))]
    pub fn taken(&self, registers: &[u8]) -> Option<u8>
        requires { ClaimsOk self.now }
        ensures { result ≡ taken (view_claims self.now) registers.now }
    {
        for r in registers {
            if self.producer(usize::from(*r)).is_some() {
                return Some(*r);
            }
        }
        None
    }

    // The sources that are owed, with the unit that owes each.
    #[tactic(auto, unfolding(model::specs::Issue::waits_on))]
    pub fn waits_on(&self, sources: &[u8]) -> Waits
        requires claims_ok { ClaimsOk self.now }
        requires few { length sources.now ≤ 8 }
        ensures { Means view_waits WaitsOk result (waits_on (view_claims self.now) sources.now) }
    {
        let mut waits = Waits::none();
        for r in sources {
            if let Some(unit) = self.producer(usize::from(*r)) {
                waits.push(*r, unit);
            }
        }
        waits
    }
}

impl Waits {
    #[tactic(auto, unfolding(crate::specs::View::views))]
    pub fn none() -> Waits
        ensures { Means view_waits WaitsOk result [] }
    {
        let nothing = Owed {
            register: 0,
            unit: 0,
        };
        Waits {
            items: [nothing; 8],
            len: 0,
        }
    }

    #[tactic(auto, unfolding(crate::specs::View::views))]
    pub fn push(&mut self, register: u8, unit: u8)
        requires waits_ok { WaitsOk self.old }
        requires room { self.old.len < 8 }
        ensures { Means view_waits WaitsOk self.new (view_waits self.old ++ (register, unit) ∷ []) }
    {
        self.items[self.len as usize] = Owed { register, unit };
        self.len += 1;
    }

    #[tactic(auto, unfolding(crate::specs::View::view_waits))]
    pub fn as_slice(&self) -> &[Owed]
        requires { WaitsOk self.now }
        ensures is { result.now ≡ take self.now.len self.now.items }
        ensures waits { map view_owed result.now ≡ view_waits self.now }
    {
        &self.items[..self.len as usize]
    }
}
