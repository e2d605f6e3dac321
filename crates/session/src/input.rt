// An input as a program reads it.
ghost use Rattle.std.specs.Prelude.{◌≡◌, take, IfOk, IfSome};
ghost use Rattle.session.specs.Transcript.{transcript};
ghost use Rattle.session.specs.Roster.{roster};

use crate::running::MOST_BYTES;
use std::alloc::Global;
use std::io;
use std::io::Read;

// Reads at most one byte more than an input may have, which tells that it is too long: what is read
// answers as all that the reader has.
pub fn read_input<R: Read + Drop>(heap: Global, reader: R) -> io::Result<Vec<u8>>
    ensures bytes { IfOk result (λ v. IfSome (R.remaining reader) (λ bs. v.items ≡ take 32769 bs)) }
    ensures transcript { IfOk result (λ v. IfSome (R.remaining reader) (λ bs. transcript v.items ≡ transcript bs)) }
    ensures roster { IfOk result (λ v. IfSome (R.remaining reader) (λ bs. roster v.items ≡ roster bs)) }
{
    let mut input = Vec::new(heap);
    reader.take(MOST_BYTES as u64 + 1).read_to_end(&mut input)?;
    Ok(input)
}
