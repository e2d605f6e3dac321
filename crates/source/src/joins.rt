// Sources made of others: a reference, nothing, and one after another.
ghost use Rattle.std.specs.Prelude.{◌≡◌, []};
ghost use Rattle.source.specs.Shows.{joined, JoinsAssociate};
ghost use Rattle.source.specs.Short.{cut_short, none_short};

use crate::sources::{Shown, Source};

// No source shows more than this.
const MOST: usize = 65_535;

// The first's list and then the second's, cut after 65,535, with the origins that the parts give. It
// holds its parts by value, so that any pile of sources is a source; a part may be a reference.
#[derive(Clone, Copy)]
pub struct Join<A, B> {
    pub first: A,
    pub second: B,
}

// Shows nothing.
#[derive(Clone, Copy)]
pub struct Empty;

impl<A: Source, B: Source> Join<A, B> {
    // However joins are nested, the same list is shown.
    pub fn new(first: A, second: B) -> Join<A, B>
        ensures value { (result.first ≡ first) × (result.second ≡ second) }
        ensures associates { JoinsAssociate }
    {
        Join { first, second }
    }
}

impl<A: Source, B: Source> Source for Join<A, B> {
    ghost shows = { λ j. joined (A.Source.shows j.first) (B.Source.shows j.second) };

    ghost short = { λ j. cut_short (A.Source.shows j.first) (B.Source.shows j.second) };

    #[tactic(auto, using(crate::proofs::Rows::length_joined))]
    fn count(&self) -> usize {
        (self.first.count() + self.second.count()).min(MOST)
    }

    #[tactic(auto, using(crate::proofs::Rows::join_shows))]
    fn shown(&self, place: usize) -> Option<Shown> {
        if place >= MOST {
            return None;
        }
        let n = self.first.count();
        if place < n {
            self.first.shown(place)
        } else {
            self.second.shown(place - n)
        }
    }
}

impl<'a, T: Source> Source for &'a T {
    ghost shows = { λ s. T.Source.shows s.now };

    ghost short = { λ s. T.Source.short s.now };

    fn count(&self) -> usize {
        T::count(*self)
    }

    fn shown(&self, place: usize) -> Option<Shown> {
        T::shown(*self, place)
    }
}

impl Source for Empty {
    ghost shows = { λ _. [] };

    ghost short = { λ _. none_short };

    fn count(&self) -> usize {
        0
    }

    fn shown(&self, _place: usize) -> Option<Shown> {
        None
    }
}
