// Whether the bytes of a machine and of an operation are of their form.
ghost use Rattle.std.specs.Prelude.{◌≡◌, ◌+◌, ◌≤◌, nat_lt, length};
ghost use Rattle.std.specs.List.{list_all};
ghost use Rattle.decoding.specs.Bytes.{below, places};
ghost use Rattle.decoding.specs.Operation.{op_formed};
ghost use Rattle.decoding.specs.Machine.{kind_formed, machine_formed};

// Is each byte below a number?
fn all_below(bytes: &[u8], most: u8) -> bool
    ensures { result ≡ list_all (λ b. nat_lt b most) bytes.now }
{
    bytes.iter().all(|b| *b < most)
}

// Is each of n bytes below a number?
#[tactic(auto, using(crate::proofs::Places::cut), unfolding(crate::specs::Bytes::below))]
pub fn below(list: &[u8], at: usize, n: usize, most: u8) -> bool
    requires { at + n ≤ length list.now }
    ensures { result ≡ below most n list.now at }
{
    all_below(&list[at..at + n], most)
}

#[tactic(auto, unfolding(crate::specs::Operation::op_formed))]
pub fn op_formed(list: &[u8], at: usize) -> bool
    requires { at + 382 ≤ length list.now }
    ensures { result ≡ op_formed list.now at }
{
    below(list, at + 16, 1, 10)
        && below(list, at + 17, 2, 2)
        && below(list, at + 92, 1, 2)
        && below(list, at + 158, 1, 2)
}

#[tactic(auto, unfolding(crate::specs::Machine::kind_formed))]
fn kind_formed(list: &[u8], at: usize) -> bool
    requires { at + 28 ≤ length list.now }
    ensures { result ≡ kind_formed list.now at }
{
    below(list, at + 9, 10, 2) && below(list, at + 19, 1, 10)
}

fn kinds_formed(list: &[u8]) -> bool
    requires { 555 ≤ length list.now }
    ensures { result ≡ list_all (kind_formed list.now) (places 28 16 107) }
{
    for i in 0..16 {
        if !kind_formed(list, 107 + i * 28) {
            return false;
        }
    }
    true
}

#[tactic(auto, unfolding(crate::specs::Machine::machine_formed))]
pub fn machine_formed(list: &[u8]) -> bool
    ensures { result ≡ machine_formed list.now }
{
    555 <= list.len() && below(list, 56, 1, 2) && below(list, 90, 16, 8) && kinds_formed(list)
}
