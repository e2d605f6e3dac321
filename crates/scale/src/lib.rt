// Scales: how weights compare and combine.
//
// A weight of the scale S is an `Option<S>`, and `None` is the weight none. So S itself holds the
// weights other than none, and an interface below is implemented by them. The functions over
// weights, none among them, are in `weight`.
#![tactic(auto)]

ghost use Rattle.std.specs.Prelude.{◌≡◌, Decides};
ghost use Rattle.scale.specs.Scale.{Meaning, Laws, Chooses, Strict, Solid};

use ceiling::Ceiling;
use credential::Record;
use distance::Distance;
use pair::Pair;

pub mod ceiling;
pub mod distance;
pub mod pair;
mod stated;
#[cfg(test)]
mod tests;
pub mod weight;
pub mod worked;
pub mod yes;

// How the weights other than none compare and combine, and how a record states one.
pub trait Scale: Copy {
    // Full, better-of, combine, and the two readings.
    ghost meaning: { Meaning Self };

    fn full() -> Self
        ensures { result ≡ meaning.full };

    #[tactic(auto, using(crate::proofs::Chosen::chosen))]
    fn better_of(self, other: Self) -> Self
        ensures { result ≡ meaning.better self other }
    {
        if self.at_least(other) { self } else { other }
    }

    // `None` where the two combine to none.
    fn combine(self, other: Self) -> Option<Self>
        ensures { result ≡ meaning.combine self other };

    fn at_least(self, other: Self) -> bool
        ensures { Decides result (meaning.better self other ≡ self) };

    // The weight that a credential's record states; `None` where it is unreadable.
    fn read_credential(stated: Record) -> Option<Self>
        ensures { result ≡ meaning.credential stated };

    // The weight that a threshold's record asks for; `None` where it is unreadable.
    fn read_threshold(stated: Record) -> Option<Self>
        ensures { result ≡ meaning.threshold stated };

    // What each scale proves of all its weights, none among them.
    ghost laws: { Laws meaning };

    // Apart from the laws, since most of what is proved of scales stands without it.
    ghost chooses: { Chooses meaning };
}

// A scale whose weights in strict order stay so when each is combined with a third, unless both
// results are none. A pair's first part has to be one.
pub trait StrictScale: Scale {
    ghost strict: { Strict Self.Scale.meaning };
}

// A scale whose weights other than none never combine to none. A pair's second part has to be one.
pub trait SolidScale: Scale {
    ghost solid: { Solid Self.Scale.meaning };
}

// The gate's maxima.
pub const MOST_BYTES: u32 = 2_147_483_647;

pub const MOST_POINTS: u32 = 1_000_000;

// The gate's scales, beside `yes::Yes`.
pub type Ceilings = Ceiling<MOST_BYTES>;

pub type Distances = Distance<MOST_POINTS>;

// The lesser distance first; at equal distances the greater ceiling.
pub type Nearest = Pair<Distances, Ceilings>;
