// Which words are names, and how names are kept.
ghost use Rattle.std.specs.Prelude.{◌≡◌, ◌≤◌, length};
ghost use Rattle.book.specs.Names.{name_byte, name_bytes, name, entity, role_name, kind_of};

use super::*;
use crate::refusal::Kind;

fn is_name_byte(b: u8) -> bool
    ensures { result ≡ name_byte b }
{
    b.is_ascii_alphanumeric() || b == b'_'
}

fn are_name_bytes(word: &[u8]) -> bool
    ensures { result ≡ name_bytes word.now }
{
    word.iter().all(|b| is_name_byte(*b))
}

fn is_name(word: &[u8]) -> bool
    ensures { result ≡ name word.now }
{
    (1..=NAME_LENGTH).contains(&word.len()) && are_name_bytes(word)
}

// One for each kind, since their callers ask of one kind at a time: `is_entity(word)` reads plainer than
// a test of the first letter handed to a common function.
pub fn is_entity(word: &[u8]) -> bool
    ensures { result ≡ entity word.now }
{
    is_name(word) && word[0].is_ascii_uppercase()
}

pub fn is_role_name(word: &[u8]) -> bool
    ensures { result ≡ role_name word.now }
{
    is_name(word) && word[0].is_ascii_lowercase()
}

// Its three cases are those of `kind_of` in specs/Names.antt; a chain of options would hide them.
pub(crate) fn kind_of(word: &[u8]) -> Option<Kind>
    ensures { result ≡ kind_of word.now }
{
    if is_entity(word) {
        Some(Kind::Entity)
    } else if is_role_name(word) {
        Some(Kind::RoleName)
    } else {
        None
    }
}

impl Name {
    pub(super) fn of(word: &[u8]) -> Name
        requires { length word.now ≤ 24 }
        ensures { result ≡ word.now }
    {
        let mut bytes = [0u8; NAME_LENGTH];
        let len = word.len();
        bytes[..len].copy_from_slice(word);
        Name {
            bytes,
            len: len as u8,
        }
    }

    pub(super) fn text(&self) -> &[u8]
        ensures value { result.now ≡ self.now }
        ensures short { length result.now ≤ 24 }
    {
        &self.bytes[..self.len as usize]
    }
}
