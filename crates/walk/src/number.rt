// The number of a cell, where it has one yet.
ghost use Rattle.std.specs.Prelude.{◌≡◌, ◌<◌, Some, None};

use std::marker::Model;

// A number or none, in two bytes: one more than the number, and 0 for none. An `Option<u16>` takes four, and an
// order has room for 32,768. Clauses see the option.
#[derive(Clone, Copy)]
pub(crate) struct CellNumber {
    above: u16,
}

impl Model for CellNumber {
    ghost use Rattle.std.specs.Prelude.{ℕ, Option};
    ghost use Rattle.walk.specs.Above.{number_below, above_number, back};

    ghost Value = { Option ℕ };

    ghost view = { λ n. number_below n.above };

    ghost inverse = { λ o. record { above = above_number o } };

    ghost inverse_ok = { λ n h i. record { above = back n.above i } };
}

impl CellNumber {
    pub fn none() -> CellNumber
        ensures { result ≡ None }
    {
        CellNumber { above: 0 }
    }

    pub fn some(number: u16) -> CellNumber
        requires { number < 65535 }
        ensures { result ≡ Some number }
    {
        CellNumber { above: number + 1 }
    }

    pub fn get(self) -> Option<u16>
        ensures { result ≡ self }
    {
        self.above.checked_sub(1)
    }
}
