// A ceiling in bytes, from 0 to a maximum: up to which size a membership is good.
ghost use Rattle.std.specs.Prelude.{◌≤◌};

use crate::stated::within;
use crate::{Scale, SolidScale};
use credential::Record;

#[derive(Clone, Copy, PartialEq, Eq, PartialOrd, Ord, Debug)]
pub struct Ceiling<const MOST: u32> {
    pub bytes: u32,
    ghost ok: { bytes ≤ MOST },
}

impl<const MOST: u32> Scale for Ceiling<MOST> {
    ghost use Rattle.scale.specs.Ceiling.{ceiling_meaning};
    ghost use Rattle.scale.specs.CeilingLaws.{ceiling_laws, ceiling_chooses};

    ghost meaning = { ceiling_meaning MOST };

    ghost laws = { ceiling_laws MOST };

    ghost chooses = { ceiling_chooses MOST };

    #[tactic(auto, using(crate::specs::Same::ceiling_is))]
    fn full() -> Self {
        Ceiling { bytes: MOST }
    }

    fn combine(self, other: Self) -> Option<Self> {
        Some(other.min(self))
    }

    fn at_least(self, other: Self) -> bool {
        self >= other
    }

    fn read_credential(stated: Record) -> Option<Self> {
        // No ceiling is stated, so every size is good.
        Ceiling::reading(Self::full(), stated.ceiling)
    }

    fn read_threshold(stated: Record) -> Option<Self> {
        // The size is unknown, so every ceiling will do.
        Ceiling::reading(Ceiling { bytes: 0 }, stated.ceiling)
    }
}

impl<const MOST: u32> SolidScale for Ceiling<MOST> {
    ghost use Rattle.scale.specs.CeilingLaws.{ceiling_solid};

    ghost solid = { ceiling_solid MOST };
}

impl<const MOST: u32> Ceiling<MOST> {
    ghost use Rattle.std.specs.Prelude.{◌≡◌};
    ghost use Rattle.scale.specs.Ceiling.{ceiling_reading};

    // The ceiling of so many bytes, -1 as a ceiling of its own; `None` for any other negative number
    // and above the maximum.
    fn reading(unstated: Self, stated: i32) -> Option<Self>
        ensures { result ≡ ceiling_reading MOST unstated.entry stated }
    {
        match stated {
            -1 => Some(unstated),
            bytes => Some(Ceiling {
                bytes: within(bytes, MOST)?,
            }),
        }
    }
}
