// The weights of the gate's four scales as they are told.
ghost use Rattle.std.specs.Prelude.{◌≡◌};
ghost use Rattle.ruling.specs.declared.weights.Weight.{Weight};
ghost use Rattle.ruling.specs.declared.weights.Weight.TheVariants as told;

use scale::yes::Yes;
use scale::{Ceilings, Distances, Nearest, Scale};

#[derive(Clone, Copy, PartialEq, Eq, Debug)]
pub enum Weight {
    Yes,
    // In bytes.
    Ceiling(u32),
    // In points.
    Distance(u32),
    Nearest { distance: u32, ceiling: u32 },
}

// A scale whose weights are told. A method and no `From`: clauses name the function of weights, for which
// `From` has no word.
pub trait ToldScale: Scale {
    ghost tells: { Self → Weight };

    fn tell(self) -> Weight
        ensures { result ≡ tells self };
}

impl ToldScale for Yes {
    ghost tells = { λ _. told.Yes };

    fn tell(self) -> Weight {
        Weight::Yes
    }
}

impl ToldScale for Ceilings {
    ghost tells = { λ w. told.Ceiling w.bytes };

    fn tell(self) -> Weight {
        Weight::Ceiling(self.bytes)
    }
}

impl ToldScale for Distances {
    ghost tells = { λ w. told.Distance w.points };

    fn tell(self) -> Weight {
        Weight::Distance(self.points)
    }
}

impl ToldScale for Nearest {
    ghost tells = { λ w. told.Nearest w.first.points w.second.bytes };

    fn tell(self) -> Weight {
        Weight::Nearest {
            distance: self.first.points,
            ceiling: self.second.bytes,
        }
    }
}
