// Texts cut at a byte: what stands before the first one, and what stands beyond it.
ghost use Rattle.std.specs.Prelude.{◌≡◌, ◌==◌, unwrap_or, length};
ghost use Rattle.std.specs.List.{position_from};
ghost use Rattle.laws.specs.Texts.{before, beyond};
ghost use Rattle.lines.specs.Cut.{Cut};

// Where the first byte b stands.
fn find(s: &[u8], b: u8) -> Option<usize>
    ensures { result ≡ position_from (λ x. x == b) 0 s.now }
{
    s.iter().position(|x| *x == b)
}

// Where the first byte b stands; the length where there is none.
pub fn place_of(s: &[u8], b: u8) -> usize
    ensures { Cut b s.now result }
{
    find(s, b).unwrap_or(s.len())
}

pub fn before(s: &[u8], b: u8) -> &[u8]
    ensures { result.now ≡ before b s.now }
{
    &s[..place_of(s, b)]
}

pub fn beyond(s: &[u8], b: u8) -> &[u8]
    ensures { result.now ≡ beyond b s.now }
{
    let n = place_of(s, b);
    if n < s.len() { &s[n + 1..] } else { &s[n..] }
}
