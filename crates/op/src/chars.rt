// A text in an array, and the checks on it.
ghost use Rattle.std.specs.Prelude.{◌≡◌, min, not, [], length};
ghost use Rattle.std.specs.List.{list_any};
ghost use Rattle.std.specs.Cmp.{on_per};
ghost use Rattle.laws.specs.Texts.{same};
ghost use Rattle.model.specs.Calls.{bad_byte, bad_text};
ghost use Rattle.op.specs.Chars.{shown, view_text};
ghost use Rattle.op.specs.Same.{same_per};

// At most N bytes, each 0x20 to 0x7E. A longer len is refused.
#[derive(Clone, Copy, Debug)]
pub struct Chars<const N: usize> {
    pub bytes: [u8; N],
    pub len: u8,
}

// A text to display.
pub type Text = Chars<64>;

// A register's name.
pub type Name = Chars<16>;

// A byte that a text may hold.
#[tactic(auto, unfolding(model::specs::Calls::bad_byte))]
pub fn printable(b: u8) -> bool
    ensures { result ≡ not (bad_byte b) }
{
    (0x20..=0x7E).contains(&b)
}

impl<const N: usize> Chars<N> {
    #[tactic(auto, using(crate::proofs::Texts::shows), unfolding(crate::specs::Chars::view_text))]
    pub fn empty() -> Self
        ensures { view_text result ≡ [] }
    {
        Chars {
            bytes: [0; N],
            len: 0,
        }
    }

    // The text that s holds. One over N bytes stays too long.
    #[tactic(auto, using(crate::proofs::Texts::shown_copied), unfolding(crate::specs::Chars::view_text))]
    pub fn from_slice(s: &[u8]) -> Self
        ensures { view_text result ≡ shown N (min (length s.now) 255) s.now }
    {
        let mut bytes = [0u8; N];
        let n = s.len().min(N);
        bytes[..n].copy_from_slice(&s[..n]);
        Chars {
            bytes,
            len: s.len().min(255) as u8,
        }
    }

    // The same, and how long its array is, which its type says.
    pub fn whole(&self) -> Self
        ensures is { result ≡ self.now }
        ensures size { length result.bytes ≡ N }
    {
        Chars {
            bytes: whole(&self.bytes),
            len: self.len,
        }
    }

    // Refusal 2.
    #[tactic(auto, using(crate::proofs::Texts::bads), unfolding(crate::specs::Chars::view_text))]
    pub fn is_bad(&self) -> bool
        ensures { result ≡ bad_text N (view_text self.now) }
    {
        let n = self.len as usize;
        N < n || has_bad_byte(&self.bytes[..n])
    }
}

fn whole<const N: usize>(bytes: &[u8; N]) -> [u8; N]
    ensures is { result ≡ bytes.now }
    ensures size { length result ≡ N }
{
    *bytes
}

fn has_bad_byte(s: &[u8]) -> bool
    ensures { result ≡ list_any bad_byte s.now }
{
    s.iter().any(|b| !printable(*b))
}

// Of texts that are too long only the lengths are compared.
impl<const N: usize> PartialEq for Chars<N> {
    ghost eq = { λ a b. same (view_text a) (view_text b) };

    ghost laws = { on_per view_text same_per };

    #[tactic(auto, using(crate::proofs::Texts::sames), unfolding(crate::specs::Chars::view_text))]
    fn eq(&self, other: &Self) -> bool {
        let n = self.len as usize;
        self.len == other.len && (N < n || self.bytes[..n] == other.bytes[..n])
    }
}
