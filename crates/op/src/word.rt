// mnemonic of ooo/scoreboard.rs: split_whitespace().next().unwrap_or("?").
ghost use Rattle.std.specs.Prelude.{◌≡◌, ◌<◌, not, ◌==◌, length, position, IfSome};
ghost use Rattle.op.specs.FirstWord.{word_or};

// Where the leading spaces of a text end and a word starts.
fn word_start(text: &[u8]) -> Option<usize>
    ensures at { result ≡ position (λ b. not (b == 32)) text.now }
    ensures within { IfSome result (λ i. i < length text.now) }
{
    text.iter().position(|b| *b != 0x20)
}

// Where the word at the front of a text ends, if before the text does.
fn word_end(text: &[u8]) -> Option<usize>
    ensures at { result ≡ position (λ b. b == 32) text.now }
    ensures within { IfSome result (λ i. i < length text.now) }
{
    text.iter().position(|b| *b == 0x20)
}

// The first word of a text, as a part of it, or all of `none` where there is none.
#[tactic(auto, using(crate::proofs::Scans::words))]
pub fn mnemonic<'a>(text: &'a [u8], none: &'a [u8]) -> &'a [u8]
    ensures { result.now ≡ word_or none.now text.now }
{
    let Some(start) = word_start(text) else {
        return none;
    };
    let rest = &text[start..];
    let end = word_end(rest).unwrap_or(rest.len());
    &rest[..end]
}
