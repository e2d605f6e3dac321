// Integers of 32 signed bits as text, each in one spelling only: the one that `{n}` writes.
ghost use Rattle.std.specs.Prelude.{◌≡◌};
ghost use Rattle.words.specs.Begins.{plain};
ghost use Rattle.words.specs.Integer.{integer, Exact};

use std::str;

#[tactic(auto, using(crate::proofs::Spelling::exact, crate::proofs::Spelling::not_plain, crate::proofs::Spelling::not_utf8))]
pub fn read_integer(word: &[u8]) -> Option<i32>
    ensures value { result ≡ integer word.now }
    ensures exact { Exact }
{
    // `parse` would also take a plus, leading zeros and `-0`.
    if !is_plain(word) {
        return None;
    }
    // `ok()?` would lose which of the two cases it is, which the proof reads.
    let Ok(text) = str::from_utf8(word) else {
        return None;
    };
    text.parse().ok()
}

// Whether `word` begins as the spelling of a number does.
fn is_plain(word: &[u8]) -> bool
    ensures { result ≡ plain word.now }
{
    matches!(word, [b'0'] | [b'1'..=b'9', ..] | [b'-', b'1'..=b'9', ..])
}
