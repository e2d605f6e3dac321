// A distance in points, from 0 to a maximum: how far away a membership is. A type of its own beside
// `Ceiling`, so that points and bytes are not mixed.
ghost use Rattle.std.specs.Prelude.{◌≤◌};

use crate::stated::within;
use crate::{Scale, StrictScale};
use credential::Record;

#[derive(Clone, Copy, PartialEq, Eq, PartialOrd, Ord, Debug)]
pub struct Distance<const MOST: u32> {
    pub points: u32,
    ghost ok: { points ≤ MOST },
}

impl<const MOST: u32> Scale for Distance<MOST> {
    ghost use Rattle.scale.specs.Distance.{distance_meaning};
    ghost use Rattle.scale.specs.DistanceLaws.{distance_laws, distance_chooses};

    ghost meaning = { distance_meaning MOST };

    ghost laws = { distance_laws MOST };

    ghost chooses = { distance_chooses MOST };

    #[tactic(auto, using(crate::specs::Same::distance_is))]
    fn full() -> Self {
        Distance { points: 0 }
    }

    fn combine(self, other: Self) -> Option<Self> {
        let points = self.points.checked_add(other.points)?;
        // Tried as a filter: where the distance is made, the fact of its field was then not known.
        if points > MOST {
            return None;
        }
        Some(Distance { points })
    }

    fn at_least(self, other: Self) -> bool {
        self <= other
    }

    // -1 has no meaning here: a credential always states its distance.
    fn read_credential(stated: Record) -> Option<Self> {
        let points = within(stated.distance, MOST)?;
        Some(Distance { points })
    }

    fn read_threshold(stated: Record) -> Option<Self> {
        let points = match stated.distance {
            // The distance is not limited, so every distance will do.
            -1 => MOST,
            distance => within(distance, MOST)?,
        };
        Some(Distance { points })
    }
}

impl<const MOST: u32> StrictScale for Distance<MOST> {
    ghost use Rattle.scale.specs.DistanceLaws.{distance_strict};

    ghost strict = { distance_strict MOST };
}
