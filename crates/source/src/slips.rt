ghost use Rattle.std.specs.Prelude.{◌≤◌, vec_len, vec_capacity};

use credential::Credential;

pub mod calls;

// A slip holds at most this many credentials.
pub const PRESENTED: usize = 16;

// The credentials that a client presents, in order. Nothing is judged here: that is the decision's
// part. All room is reserved when it is made. A vector of its own, as the book says of its own.
#[derive(Drop)]
pub struct Slip {
    credentials: Vec<Credential>,
    ghost room: { (16 ≤ vec_capacity credentials) × (vec_len credentials ≤ 16) },
}

// What present refuses. `number` in specs/Slips.antt gives it its number.
#[derive(Clone, Copy, PartialEq, Eq, Debug)]
pub enum SlipRefusal {
    Full = 20,
}
