// The statements that are in force after an input.
ghost use Rattle.std.specs.Prelude.{◌≡◌, IfOk};
ghost use Rattle.session.specs.State.{state};
ghost use Rattle.session.specs.Roster.{in_force, roster};

use crate::running::Run;
use crate::state::Session;
use std::alloc::{AllocError, Global};
use writer::statement_text;

impl Session {
    // Each statement as add spells it, on a line of its own.
    fn list(&self, heap: Global) -> Result<Vec<u8>, AllocError>
        ensures { IfOk result (λ v. v.items ≡ in_force (state self.now).book) }
    {
        let mut out = Vec::new(heap);
        for credential in self.book.credentials() {
            let text = statement_text(&self.register, credential).unwrap();
            out.extend_from_slice(text.as_slice())?;
            out.push(b'\n')?;
        }
        Ok(out)
    }
}

// What the roster prints for an input.
pub fn roster(heap: Global, input: &[u8]) -> Result<Vec<u8>, AllocError>
    ensures { IfOk result (λ v. v.items ≡ roster input.now) }
{
    let Run { printed, session } = Run::of(heap, input)?;
    match session {
        Some(session) => session.list(heap),
        None => Ok(printed.into_bytes()),
    }
}
