// The scale whose one weight other than none is yes.
ghost use Rattle.scale.specs.Yes.{yes_meaning};
ghost use Rattle.scale.specs.YesLaws.{yes_laws, yes_chooses, yes_strict, yes_solid};

use crate::{Scale, SolidScale, StrictScale};
use credential::Record;

#[derive(Clone, Copy, PartialEq, Eq, Debug)]
pub struct Yes;

impl Scale for Yes {
    ghost meaning = { yes_meaning };

    ghost laws = { yes_laws };

    ghost chooses = { yes_chooses };

    fn full() -> Self {
        Yes
    }

    fn combine(self, _other: Self) -> Option<Self> {
        Some(self)
    }

    fn at_least(self, _other: Self) -> bool {
        true
    }

    fn read_credential(_stated: Record) -> Option<Self> {
        Some(Yes)
    }

    fn read_threshold(_stated: Record) -> Option<Self> {
        Some(Yes)
    }
}

impl StrictScale for Yes {
    ghost strict = { yes_strict };
}

impl SolidScale for Yes {
    ghost solid = { yes_solid };
}
