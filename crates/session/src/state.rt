ghost use Rattle.std.specs.Prelude.{◌≡◌, true};
ghost use Rattle.book.specs.Kept.{plain};
ghost use Rattle.session.specs.Listed.{all_enrolled};

use book::{Book, Register};
use source::Slip;

// The register, its book and the slip, which the lines of one input change.
#[derive(Drop)]
pub struct Session {
    pub(crate) register: Register,
    pub(crate) book: Book,
    pub(crate) slip: Slip,
    ghost enrolled: { all_enrolled (plain register book) ≡ true },
}
