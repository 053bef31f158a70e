// Operands: an operation's registers by number.
ghost use Rattle.std.specs.Prelude.{◌≡◌, ◌++◌};
ghost use Rattle.laws.specs.Means.{Means};
ghost use Rattle.registers.specs.Look.{through};
ghost use Rattle.registers.specs.View.{read, written, no_operands, view_operands, OperandsOk};

use super::Operands;

impl Operands {
    pub fn none() -> Operands
        ensures { Means view_operands OperandsOk result no_operands }
    {
        Operands {
            sources: [0; 8],
            destinations: [0; 4],
            sources_len: 0,
            destinations_len: 0,
        }
    }

    pub fn reads(&self) -> &[u8]
        requires { OperandsOk self.now }
        ensures { result.now ≡ read self.now }
    {
        &self.sources[..self.sources_len as usize]
    }

    pub fn writes(&self) -> &[u8]
        requires { OperandsOk self.now }
        ensures { result.now ≡ written self.now }
    {
        &self.destinations[..self.destinations_len as usize]
    }

    // One more than the largest number: so many names a look makes known.
    #[tactic(auto, using(std::proofs::lemmas::Grind::common_steps, crate::proofs::Look::through_fold))]
    pub fn through(&self) -> usize
        requires { OperandsOk self.now }
        ensures { result ≡ through (read self.now ++ written self.now) }
    {
        self.reads()
            .iter()
            .chain(self.writes())
            .fold(0, |most, r| most.max(usize::from(*r) + 1))
    }
}
