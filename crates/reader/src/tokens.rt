// What one word says.
ghost use Rattle.std.specs.Prelude.{◌≡◌, ◌&&◌};
ghost use Rattle.std.specs.Option.{option_map};
ghost use Rattle.std.specs.Bool.{then_some};
ghost use Rattle.book.specs.Names as names;
ghost use Rattle.reader.specs.Sentences.{role_by};
ghost use Rattle.words.specs.Cursor.{told};
ghost use Rattle.reader.specs.Tokens.{said, sign_of, single, token_of};
ghost use Rattle.reader.specs.Verbs.{verb_of};

use crate::sentence::RoleText;
use book::{is_entity, is_role_name};
use words::{Part, read_integer};

#[derive(Clone, Copy, PartialEq)]
pub enum Sign {
    // `<-`
    Arrow,
    // `&`
    And,
    // `:`
    Colon,
}

// The first word of a line.
#[derive(Clone, Copy, PartialEq)]
pub enum Verb {
    Enrol,
    Add,
    Withdraw,
    Present,
}

// A word of a statement: its names are parts of the line, with their places.
#[derive(Clone, Copy)]
pub enum Token<'a> {
    Entity(Part<'a>),
    Role(RoleText<Part<'a>>),
    Link(RoleText<Part<'a>>, Part<'a>),
    Number(i32),
    Mark(Sign),
}

// No TryFrom, here and below: it would ask for an error that no caller reads.
pub(crate) fn read_verb(word: &[u8]) -> Option<Verb>
    ensures { result ≡ verb_of word.now }
{
    match word {
        b"enrol" => Some(Verb::Enrol),
        b"add" => Some(Verb::Add),
        b"withdraw" => Some(Verb::Withdraw),
        b"present" => Some(Verb::Present),
        _ => None,
    }
}

fn read_sign(word: &[u8]) -> Option<Sign>
    ensures { result ≡ sign_of word.now }
{
    match word {
        b"<-" => Some(Sign::Arrow),
        b"&" => Some(Sign::And),
        b":" => Some(Sign::Colon),
        _ => None,
    }
}

// A word with no dot.
fn undotted<'a>(word: Part<'a>) -> Option<Token<'a>>
    ensures { option_map said result ≡ single (told word.entry) }
{
    if is_entity(word.text) {
        return Some(Token::Entity(word));
    }
    // Closures: the check finds no lifetime for a token in the bare name of a variant.
    let mark = read_sign(word.text).map(|sign| Token::Mark(sign));
    mark.or_else(|| read_integer(word.text).map(|number| Token::Number(number)))
}

// The two parts of a role.
fn role_text<'a>(entity: Part<'a>, name: Part<'a>) -> Option<RoleText<Part<'a>>>
    ensures { option_map (role_by told) result ≡ then_some (names.entity entity.entry.text.now && names.role_name name.entry.text.now) (record { entity = told entity.entry; name = told name.entry }) }
{
    (is_entity(entity.text) && is_role_name(name.text)).then_some(RoleText { entity, name })
}

pub(crate) fn read_token<'a>(word: Part<'a>) -> Option<Token<'a>>
    ensures { option_map said result ≡ token_of (told word.entry) }
{
    let mut parts = word.split(b'.');
    match (parts.next(), parts.next(), parts.next(), parts.next()) {
        (Some(entity), None, _, _) => undotted(entity),
        (Some(entity), Some(name), None, _) => Some(Token::Role(role_text(entity, name)?)),
        (Some(entity), Some(name), Some(linked), None) if is_role_name(linked.text) => {
            Some(Token::Link(role_text(entity, name)?, linked))
        }
        _ => None,
    }
}
