// The first two words of a line: its class and its length.
ghost use Rattle.std.specs.Prelude.{◌≡◌};
ghost use Rattle.model.specs.Forecast.{letters, class_by, class_in, size_in, branches};

use super::parts;
use capability::PipelineInstructionClass;

// The letters stand in the order of the classes.
fn class_by(letter: u8) -> Option<PipelineInstructionClass>
    ensures { result ≡ class_by letters letter }
{
    let n = parts::place_of(b"AMDLSBJYFU", letter);
    PipelineInstructionClass::try_from(n as u8).ok()
}

#[tactic(auto, unfolding(model::specs::Forecast::class_in))]
pub fn class_in(s: &[u8]) -> Option<PipelineInstructionClass>
    ensures { result ≡ class_in s.now }
{
    match s {
        [letter] => class_by(*letter),
        _ => None,
    }
}

// B and J set the branch flag.
#[tactic(auto, unfolding(model::specs::Forecast::branches, model::specs::Config::same_class, capability::specs::Numbers::class_number))]
pub fn branches(class: PipelineInstructionClass) -> bool
    ensures { result ≡ branches class }
{
    class == PipelineInstructionClass::Branch || class == PipelineInstructionClass::Jump
}

// A length: 1 to 15.
#[tactic(auto, unfolding(model::specs::Forecast::size_in))]
pub fn size_in(s: &[u8]) -> Option<u64>
    ensures { result ≡ size_in s.now }
{
    match s {
        [a] if b'1' <= *a && *a <= b'9' => Some((*a - b'0') as u64),
        [b'1', b] if b'0' <= *b && *b <= b'5' => Some((*b - b'0') as u64 + 10),
        _ => None,
    }
}
