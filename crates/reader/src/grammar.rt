// A line read word by word. Each method takes words off the front.
ghost use Rattle.std.specs.Prelude.{◌≡◌, [], ◌∷◌, MatchResult};
ghost use Rattle.words.specs.Split.{split, placed};
ghost use Rattle.words.specs.Cursor.{told, todo};
ghost use Rattle.reader.specs.Sentences.{role_by, phrase_by, sentence_by};
ghost use Rattle.reader.specs.Grammar.{fit, a_role, a_number, a_sign, a_word, just, weight_at, second_at, body_at, statement_at, weighed_at, credential_at, command_at, header_at, only, closed, command_line, first_line};
ghost use Rattle.reader.specs.Patterns.{patterns, header_patterns, line_fault, fault_of};
ghost use Rattle.reader.specs.Told.{told_command, at_byte};
ghost use Rattle.reader.specs.Reads.{end_of, Reads};

use crate::faults::Malformed;
use crate::sentence::{Command, Phrase, RoleText, Sentence};
use crate::tokens::{Sign, Token, Verb, read_token, read_verb};
use credential::Record;
use words::{Part, Parts};

// A line of the text, without the line feed that ends it, if any.
#[derive(Clone, Copy)]
pub struct Line<'a> {
    pub text: &'a [u8],
    pub ended: bool,
}

// The words of a line that are not read yet.
#[derive(Clone, Copy)]
struct Words<'a> {
    line: Line<'a>,
    rest: Parts<'a>,
}

impl<'a> Line<'a> {
    // The byte just past the line, where what is missing stands.
    fn end(self) -> usize
        ensures { result ≡ end_of self.entry }
    {
        self.text.len() + 1
    }

    fn words(self) -> Words<'a>
        ensures line { result.line ≡ self.entry }
        ensures words { todo result.rest ≡ placed 1 (split 32 self.entry.text.now) }
    {
        Words {
            line: self,
            rest: Part::whole(self.text).split(b' '),
        }
    }
}

impl<'a> Words<'a> {
    fn word(&mut self) -> Result<Part<'a>, Malformed>
        ensures word { MatchResult result (λ w. todo self.old.rest ≡ told w ∷ todo self.new.rest) (λ e. (todo self.old.rest ≡ []) × (todo self.new.rest ≡ []) × (e.byte ≡ end_of self.old.line)) }
        ensures line { self.new.line ≡ self.old.line }
    {
        self.rest.next().ok_or(Malformed {
            byte: self.line.end(),
        })
    }

    // Here and below each word meets a pattern of its own. One function over closures would take a definition
    // and an answer for each pattern more, and shorten two of five.
    fn role(&mut self) -> Result<RoleText<Part<'a>>, Malformed>
        ensures { Reads (role_by told) (fit a_role) self.old result self.new }
    {
        let word = self.word()?;
        match read_token(word) {
            Some(Token::Role(role)) => Ok(role),
            _ => Err(Malformed { byte: word.byte }),
        }
    }

    fn number(&mut self) -> Result<i32, Malformed>
        ensures { Reads (λ n. n) (fit a_number) self.old result self.new }
    {
        let word = self.word()?;
        match read_token(word) {
            Some(Token::Number(number)) => Ok(number),
            _ => Err(Malformed { byte: word.byte }),
        }
    }

    fn sign(&mut self, wanted: Sign) -> Result<(), Malformed>
        ensures { Reads (λ x. x) (fit (a_sign wanted)) self.old result self.new }
    {
        let word = self.word()?;
        match read_token(word) {
            Some(Token::Mark(sign)) if sign == wanted => Ok(()),
            _ => Err(Malformed { byte: word.byte }),
        }
    }

    // Any word that is not empty.
    fn filled(&mut self) -> Result<Part<'a>, Malformed>
        ensures { Reads told (fit a_word) self.old result self.new }
    {
        let word = self.word()?;
        if word.text.is_empty() {
            return Err(Malformed { byte: word.byte });
        }
        Ok(word)
    }

    // Just this word.
    fn exactly(&mut self, text: &[u8]) -> Result<(), Malformed>
        ensures { Reads (λ x. x) (fit (just text.now)) self.old result self.new }
    {
        let word = self.word()?;
        if word.text != text {
            return Err(Malformed { byte: word.byte });
        }
        Ok(())
    }

    fn weight(&mut self) -> Result<Record, Malformed>
        ensures { Reads (λ w. w) weight_at self.old result self.new }
    {
        self.sign(Sign::Colon)?;
        let ceiling = self.number()?;
        let distance = self.number()?;
        Ok(Record { ceiling, distance })
    }

    // What follows a role in a body.
    fn second(&mut self, role: RoleText<Part<'a>>) -> Result<Phrase<Part<'a>, ()>, Malformed>
        ensures { Reads (phrase_by told) (λ end ws. second_at end (role_by told role.entry) ws) self.old result self.new }
    {
        if self.rest.is_empty() {
            return Ok(Phrase::Delegation(role));
        }
        self.sign(Sign::And)?;
        Ok(Phrase::Intersection(role, self.role()?))
    }

    fn body(&mut self) -> Result<Phrase<Part<'a>, ()>, Malformed>
        ensures { Reads (phrase_by told) body_at self.old result self.new }
    {
        let word = self.word()?;
        match read_token(word) {
            Some(Token::Entity(entity)) => Ok(Phrase::Member(entity, ())),
            Some(Token::Role(role)) => self.second(role),
            Some(Token::Link(role, name)) => Ok(Phrase::Link(role, name)),
            _ => Err(Malformed { byte: word.byte }),
        }
    }

    fn statement(&mut self) -> Result<Sentence<Part<'a>, ()>, Malformed>
        ensures { Reads (sentence_by told) statement_at self.old result self.new }
    {
        let head = self.role()?;
        self.sign(Sign::Arrow)?;
        let body = self.body()?;
        Ok(Sentence { head, body })
    }

    // A membership ends in its weight, and no other body does. Each variant is written out, since
    // a trait of what a membership carries would take as many lines.
    fn weighed(&mut self, bare: Phrase<Part<'a>, ()>) -> Result<Phrase<Part<'a>, Record>, Malformed>
        ensures { Reads (phrase_by told) (λ end ws. weighed_at end (phrase_by told bare.entry) ws) self.old result self.new }
    {
        match bare {
            Phrase::Member(entity, _) => Ok(Phrase::Member(entity, self.weight()?)),
            Phrase::Delegation(role) => Ok(Phrase::Delegation(role)),
            Phrase::Link(role, name) => Ok(Phrase::Link(role, name)),
            Phrase::Intersection(role, other) => Ok(Phrase::Intersection(role, other)),
        }
    }

    fn weighed_statement(&mut self) -> Result<Sentence<Part<'a>, Record>, Malformed>
        ensures { Reads (sentence_by told) credential_at self.old result self.new }
    {
        let Sentence { head, body } = self.statement()?;
        let body = self.weighed(body)?;
        Ok(Sentence { head, body })
    }

    fn command(&mut self) -> Result<Command<'a>, Malformed>
        ensures { Reads told_command command_at self.old result self.new }
    {
        let word = self.word()?;
        match read_verb(word.text) {
            Some(Verb::Enrol) => Ok(Command::Enrol(self.filled()?)),
            Some(Verb::Add) => Ok(Command::Add(self.weighed_statement()?)),
            Some(Verb::Withdraw) => Ok(Command::Withdraw(self.statement()?)),
            Some(Verb::Present) => Ok(Command::Present(self.weighed_statement()?)),
            None => Err(Malformed { byte: word.byte }),
        }
    }

    fn header(&mut self) -> Result<(), Malformed>
        ensures { Reads (λ x. x) header_at self.old result self.new }
    {
        self.exactly(b"RTW")?;
        self.exactly(b"0001")
    }

    // Nothing may follow, and the line must end in a line feed.
    fn finish(mut self) -> Result<(), Malformed>
        ensures { at_byte (λ x. x) result ≡ closed self.entry.line.ended (end_of self.entry.line) (only tt (todo self.entry.rest)) }
    {
        match self.rest.next() {
            Some(word) => Err(Malformed { byte: word.byte }),
            None if self.line.ended => Ok(()),
            None => Err(Malformed {
                byte: self.line.end(),
            }),
        }
    }
}

// A line of the text.
#[tactic(auto, using(crate::proofs::Places::command_placed))]
pub fn parse<'a>(line: Line<'a>) -> Result<Command<'a>, Malformed>
    ensures value { at_byte told_command result ≡ command_line line.entry.text.now line.entry.ended }
    ensures place { fault_of (at_byte told_command result) ≡ line_fault patterns line.entry.text.now line.entry.ended }
{
    let mut words = line.words();
    let command = words.command()?;
    words.finish()?;
    Ok(command)
}

// The first line of the text.
#[tactic(auto, using(crate::proofs::Places::header_place))]
pub fn parse_header(line: Line) -> Result<(), Malformed>
    ensures value { at_byte (λ x. x) result ≡ first_line line.entry.text.now line.entry.ended }
    ensures place { fault_of (at_byte (λ x. x) result) ≡ line_fault header_patterns line.entry.text.now line.entry.ended }
{
    let mut words = line.words();
    words.header()?;
    words.finish()
}
