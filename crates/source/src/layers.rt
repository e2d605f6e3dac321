// The book and the slip as sources: each shows its credentials in order of place. Each has an impl of its
// own over one function, since an impl for all layers would overlap with the one for a reference.
ghost use Rattle.std.specs.Prelude.{◌≡◌, ◌≤◌, length};
ghost use Rattle.std.specs.List.{slice_get};
ghost use Rattle.book.specs.Kept.{listed};
ghost use Rattle.source.specs.Shows.{layer};
ghost use Rattle.source.specs.Short.{book_short, slip_short};
ghost use Rattle.source.specs.Slips.{presented};

use crate::slips::Slip;
use crate::sources::{Origin, Shown, Source};
use book::Book;
use credential::Credential;

// The layer of the book.
const BOOK: u8 = 1;

// The layer of the slip.
const SLIP: u8 = 2;

#[tactic(auto, using(crate::proofs::Rows::layer_shows, std::proofs::lemmas::Option::gets))]
fn shown_in(number: u8, list: &[Credential], place: usize) -> Option<Shown>
    requires { length list.now ≤ 65535 }
    ensures { result ≡ slice_get (layer number list.now) place }
{
    let credential = *list.get(place)?;
    let origin = Origin {
        layer: number,
        place: place as u16,
    };
    Some(Shown { credential, origin })
}

impl Source for Book {
    ghost shows = { λ b. layer 1 (listed b) };

    ghost short = { book_short };

    #[tactic(auto, using(crate::specs::Short::length_layer, crate::specs::Short::book_short))]
    fn count(&self) -> usize {
        self.credentials().len()
    }

    fn shown(&self, place: usize) -> Option<Shown> {
        shown_in(BOOK, self.credentials(), place)
    }
}

impl Source for Slip {
    ghost shows = { λ s. layer 2 (presented s) };

    ghost short = { slip_short };

    #[tactic(auto, using(crate::specs::Short::length_layer, crate::specs::Short::slip_short))]
    fn count(&self) -> usize {
        self.credentials().len()
    }

    fn shown(&self, place: usize) -> Option<Shown> {
        shown_in(SLIP, self.credentials(), place)
    }
}
