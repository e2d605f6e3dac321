ghost use Rattle.std.specs.Prelude.{◌≡◌};
ghost use Rattle.std.specs.Iterator.{YieldsFirst, item_count};
ghost use Rattle.source.specs.Shows.{stated};

use crate::sources::Source;
use credential::Credential;
use std::marker::Model;

// The credentials of a source that are still to come, in order of place.
#[derive(Drop)]
pub struct Credentials<'a, R: Source> {
    source: &'a R,
    place: usize,
}

impl<'a, R: Source> Model for Credentials<'a, R> {
    ghost use Rattle.std.specs.Prelude.{List, drop};
    ghost use Rattle.credential.specs.Same.{Credential};
    ghost use Rattle.source.specs.Shows.{stated};

    ghost Value = { List Credential };

    ghost view = { λ s. drop s.place (stated (R.Source.shows s.source.now)) };
}

impl<'a, R: Source> Credentials<'a, R> {
    pub(crate) fn new(source: &'a R) -> Credentials<'a, R>
        ensures { result ≡ stated (R.Source.shows source.now) }
    {
        Credentials { source, place: 0 }
    }
}

impl<'a, R: Source> Iterator for Credentials<'a, R> {
    type Item = Credential;

    ghost next_gives = { YieldsFirst (λ rest. rest) };

    ghost remaining = { item_count (λ rest. rest) };

    #[tactic(auto, using(crate::proofs::Rests::rests))]
    fn next(&mut self) -> Option<Credential> {
        let c = self.source.credential(self.place)?;
        self.place += 1;
        Some(c)
    }
}
