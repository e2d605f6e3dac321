ghost use Rattle.std.specs.Prelude.{◌≡◌};
ghost use Rattle.book.specs.Kept.{number};

use credential::{Entity, RoleName};

// What enrol, add and withdraw refuse. `number` in specs/Kept.antt gives each its number.
#[derive(Clone, Copy, PartialEq, Eq, Debug)]
pub enum Refusal {
    MalformedName = 1,
    AlreadyEnrolled = 2,
    RegisterFull = 3,
    NotEnrolled = 4,
    WeightOutOfRange = 5,
    AlreadyInForce = 6,
    BookFull = 7,
    NotInForce = 8,
}

impl Refusal {
    // Its number in the list of refusals.
    pub fn number(self) -> u8
        ensures { result ≡ number self }
    {
        self as u8
    }
}

// The two kinds of names.
#[derive(Clone, Copy, PartialEq, Eq, Debug)]
pub enum Kind {
    Entity,
    RoleName,
}

// What enrol answers: the number of the name among those of its kind.
#[derive(Clone, Copy, PartialEq, Eq, Debug)]
pub enum Enrolled {
    Entity(Entity),
    RoleName(RoleName),
}
