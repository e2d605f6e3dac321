// One weight of each of two scales, a strict one and a solid one. First parts are compared, then second
// parts, and a weight that lacks a part is none.
ghost use Rattle.scale.specs.Pair.{pair_meaning};
ghost use Rattle.scale.specs.PairLaws.{pair_laws, pair_chooses};

use crate::{Scale, SolidScale, StrictScale};
use credential::Record;

#[derive(Clone, Copy, PartialEq, Eq, Debug)]
pub struct Pair<A, B> {
    pub first: A,
    pub second: B,
}

impl<A: StrictScale, B: SolidScale> Scale for Pair<A, B> {
    ghost meaning = { pair_meaning A.Scale.meaning B.Scale.meaning };

    ghost laws = { pair_laws A.Scale.meaning B.Scale.meaning A.Scale.laws B.Scale.laws A.Scale.chooses B.Scale.chooses A.StrictScale.strict B.SolidScale.solid };

    ghost chooses = { pair_chooses A.Scale.meaning B.Scale.meaning A.Scale.laws B.Scale.laws A.Scale.chooses B.Scale.chooses };

    fn full() -> Self {
        Pair {
            first: A::full(),
            second: B::full(),
        }
    }

    // Here and in the readings the second part is not asked for where the first is none.
    fn combine(self, other: Self) -> Option<Self> {
        Some(Pair {
            first: self.first.combine(other.first)?,
            second: self.second.combine(other.second)?,
        })
    }

    #[tactic(auto, using(crate::proofs::Pairs::not_least))]
    fn at_least(self, other: Self) -> bool {
        self.first.at_least(other.first)
            && (!other.first.at_least(self.first) || self.second.at_least(other.second))
    }

    fn read_credential(stated: Record) -> Option<Self> {
        Some(Pair {
            first: A::read_credential(stated)?,
            second: B::read_credential(stated)?,
        })
    }

    fn read_threshold(stated: Record) -> Option<Self> {
        Some(Pair {
            first: A::read_threshold(stated)?,
            second: B::read_threshold(stated)?,
        })
    }
}
