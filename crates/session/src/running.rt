// A whole input answered line by line.
ghost use Rattle.std.specs.Prelude.{◌≡◌, [], ◌∷◌, IfOk, MatchOption, string_bytes, OnOk};
ghost use Rattle.reader.specs.Told.{at_byte};
ghost use Rattle.session.specs.Transcript.{start, header, others, transcript};
ghost use Rattle.session.specs.Roster.{in_force, roster};
ghost use Rattle.session.specs.State.{state};
ghost use Rattle.session.specs.Turns.{told_line, left_lines, Answered};

use crate::lines::Lines;
use crate::printing::print_fault;
use crate::state::Session;
use book::{Book, Register};
use reader::grammar::parse_header;
use reader::lines::read;
use reader::{Line, Malformed};
use source::Slip;
use std::alloc::{AllocError, Global};

// An input may have at most this many bytes.
pub const MOST_BYTES: usize = 32_768;

// What comes of an input: what is printed and, where its lines are answered, the session after them.
#[derive(Drop)]
pub(crate) struct Run {
    pub(crate) printed: String,
    pub(crate) session: Option<Session>,
}

impl Session {
    // With no names, no credentials and nothing presented.
    pub fn new(heap: Global) -> Result<Session, AllocError>
        ensures { IfOk result (λ s. state s ≡ start) }
    {
        let register = Register::new(heap)?;
        let book = Book::new(heap)?;
        let slip = Slip::new(heap)?;
        Ok(Session {
            register,
            book,
            slip,
        })
    }

    // Obeys a line, and prints its refusal, if any.
    fn answer(&mut self, line: Line, out: &mut String) -> Result<(), AllocError>
        ensures { OnOk result (Answered (state self.old) (told_line line.entry ∷ []) (string_bytes out.old) (state self.new) (string_bytes out.new)) }
    {
        let reply = read(&mut self.register, &mut self.book, &mut self.slip, line);
        match reply {
            Ok(_) => Ok(()),
            Err(fault) => print_fault(out, fault),
        }
    }

    fn answer_all(&mut self, lines: Lines, out: &mut String) -> Result<(), AllocError>
        ensures { OnOk result (Answered (state self.old) (left_lines lines.entry) (string_bytes out.old) (state self.new) (string_bytes out.new)) }
    {
        for line in lines {
            self.answer(line, out)?;
        }
        Ok(())
    }
}

// The first line; the others are left.
fn check_header(lines: &mut Lines) -> Result<(), Malformed>
    ensures value { at_byte (λ x. x) result ≡ header (left_lines lines.old) }
    ensures rest { left_lines lines.new ≡ others (left_lines lines.old) }
{
    let line = lines.next().ok_or(Malformed { byte: 1 })?;
    parse_header(line)
}

impl Run {
    pub(crate) fn of(heap: Global, input: &[u8]) -> Result<Run, AllocError>
        ensures prints { IfOk result (λ r. string_bytes r.printed ≡ transcript input.now) }
        ensures leaves { IfOk result (λ r. MatchOption r.session (transcript input.now ≡ roster input.now) (λ s. in_force (state s).book ≡ roster input.now)) }
    {
        let mut printed = String::new(heap);
        if input.len() > MOST_BYTES {
            printed.push_str("too long\n")?;
            return Ok(Run {
                printed,
                session: None,
            });
        }
        let mut lines = Lines::of(input);
        if let Err(fault) = check_header(&mut lines) {
            print_fault(&mut printed, fault.into())?;
            return Ok(Run {
                printed,
                session: None,
            });
        }
        let mut session = Session::new(heap)?;
        session.answer_all(lines, &mut printed)?;
        Ok(Run {
            printed,
            session: Some(session),
        })
    }
}

// What the gate prints for an input.
pub fn transcript(heap: Global, input: &[u8]) -> Result<String, AllocError>
    ensures { IfOk result (λ s. string_bytes s ≡ transcript input.now) }
{
    let Run { printed, .. } = Run::of(heap, input)?;
    Ok(printed)
}
