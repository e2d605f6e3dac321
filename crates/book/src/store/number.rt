// The numbers that name what is enrolled.
ghost use Rattle.std.specs.Prelude.{◌≡◌, ℕ};
ghost use Rattle.book.specs.declared.refusal.Kind.{Kind as NameKind};
ghost use Rattle.book.specs.declared.refusal.Kind.TheVariants as kinds;

use crate::refusal::Kind;
use credential::{Entity, RoleName};

// The number of a name among those of its kind. Methods and no `From`, since clauses name the number as a
// function.
pub trait NameNumber: Copy {
    ghost KIND: { NameKind };

    const KIND: Kind;

    ghost number: { Self → ℕ };

    fn of(n: u8) -> Self
        ensures { number result ≡ n };

    fn number(self) -> u8
        ensures { result ≡ number self };
}

impl NameNumber for Entity {
    ghost KIND = { kinds.Entity };

    const KIND: Kind = Kind::Entity;

    ghost number = { λ e. e.0 };

    fn of(n: u8) -> Entity {
        Entity(n)
    }

    fn number(self) -> u8 {
        let Entity(number) = self;
        number
    }
}

impl NameNumber for RoleName {
    ghost KIND = { kinds.RoleName };

    const KIND: Kind = Kind::RoleName;

    ghost number = { λ r. r.0 };

    fn of(n: u8) -> RoleName {
        RoleName(n)
    }

    fn number(self) -> u8 {
        let RoleName(number) = self;
        number
    }
}
