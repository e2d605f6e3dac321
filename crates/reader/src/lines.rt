// A line looked up in the register and obeyed.
ghost use Rattle.std.specs.Prelude.{◌≡◌, List};
ghost use Rattle.words.specs.Cursor.{told};
ghost use Rattle.book.specs.Plain.{Call, fed};
ghost use Rattle.book.specs.Kept.{entities, role_names, names_of, plain};
ghost use Rattle.reader.specs.Sentences.{role_by, phrase_by, sentence_by};
ghost use Rattle.reader.specs.Calls.{known, known_role, known_body, known_claim, outcome, next_line};
ghost use Rattle.reader.specs.Told.{unknown_at};
ghost use Rattle.reader.specs.Answers.{line_said, state, StandsAfterLine};
ghost use Rattle.reader.specs.RoundTrip.{SpelledBack, ReadBack};

use crate::faults::{ReadFault, Unknown};
use crate::grammar::{Line, parse};
use crate::sentence::{Command, Phrase, RoleText, Sentence};
use book::{Book, Enrolled, NameNumber, Register};
use credential::{Body, Claim, Record, Role};
use source::Slip;
use words::Part;

// What the call that a line makes answers.
#[derive(Clone, Copy)]
pub enum Reply {
    Enrolled(Enrolled),
    // The new place.
    Added(usize),
    // The old place.
    Withdrawn(usize),
    // The place on the slip.
    Presented(usize),
}

// The number of a name. These are functions and no `From`, since a name is looked up in the register.
fn named<N: NameNumber>(register: &Register, word: Part) -> Result<N, Unknown>
    ensures { unknown_at N.number result ≡ known (names_of N.KIND register.now) (told word.entry) }
{
    register.find(word.text).ok_or(Unknown { byte: word.byte })
}

fn role(register: &Register, text: RoleText<Part>) -> Result<Role, Unknown>
    ensures { unknown_at (λ x. x) result ≡ known_role (entities register.now) (role_names register.now) (role_by told text.entry) }
{
    let entity = named(register, text.entity)?;
    let name = named(register, text.name)?;
    Ok(Role { entity, name })
}

fn body<W: Copy>(register: &Register, phrase: Phrase<Part, W>) -> Result<Body<W>, Unknown>
    ensures { unknown_at (λ x. x) result ≡ known_body (entities register.now) (role_names register.now) (phrase_by told phrase.entry) }
{
    match phrase {
        Phrase::Member(entity, carried) => Ok(Body::Member(named(register, entity)?, carried)),
        Phrase::Delegation(text) => Ok(Body::Delegation(role(register, text)?)),
        Phrase::Link(text, name) => {
            let role = role(register, text)?;
            Ok(Body::Link(role, named(register, name)?))
        }
        Phrase::Intersection(text, other) => {
            let first = role(register, text)?;
            Ok(Body::Intersection(first, role(register, other)?))
        }
    }
}

// The statement by the numbers of its names, which are looked up from left to right.
fn claim<W: Copy>(register: &Register, sentence: Sentence<Part, W>) -> Result<Claim<W>, Unknown>
    ensures { unknown_at (λ x. x) result ≡ known_claim (entities register.now) (role_names register.now) (sentence_by told sentence.entry) }
{
    let head = role(register, sentence.head)?;
    let body = body(register, sentence.body)?;
    Ok(Claim { head, body })
}

// Obeys a line of the text. A line that is refused changes nothing. Register, book and slip are lent apart: one
// struct of them would ask that the caller owns all three together.
#[tactic(auto, using(crate::proofs::RoundTrips::spelled_back, crate::proofs::RoundTrips::read_back))]
pub fn read(
    register: &mut Register,
    book: &mut Book,
    slip: &mut Slip,
    line: Line,
) -> Result<Reply, ReadFault>
    ensures answers { line_said result ≡ outcome (state register.old book.old slip.old) line.entry.text.now line.entry.ended }
    ensures changes { state register.new book.new slip.new ≡ next_line (state register.old book.old slip.old) line.entry.text.now line.entry.ended }
    ensures uses { StandsAfterLine (state register.old book.old slip.old) line.entry.text.now line.entry.ended (state register.new book.new slip.new) }
    ensures spelled_back { SpelledBack (plain register.old book.old) line.entry.text.now line.entry.ended }
    ensures read_back { (past : List Call) → ReadBack (fed past) }
{
    match parse(line)? {
        Command::Enrol(name) => Ok(Reply::Enrolled(register.enrol(name.text)?)),
        Command::Add(sentence) => {
            let credential = claim(register, sentence)?;
            Ok(Reply::Added(book.add(register, credential)?))
        }
        Command::Withdraw(sentence) => {
            let statement = claim(register, sentence)?;
            Ok(Reply::Withdrawn(book.withdraw(register, statement)?))
        }
        Command::Present(sentence) => {
            let credential = claim(register, sentence)?;
            Ok(Reply::Presented(slip.present(credential)?))
        }
    }
}
