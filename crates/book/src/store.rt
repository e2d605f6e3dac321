ghost use Rattle.std.specs.Prelude.{ℕ, ◌≤◌, List, vec_len, vec_capacity};

use credential::Credential;
use std::marker::Model;

pub mod credentials;
pub mod enrolment;
pub mod list;
pub mod names;
pub mod number;

pub const NAME_LENGTH: usize = 24;

pub const ENTITIES: usize = 64;

pub const ROLE_NAMES: usize = 32;

pub const CREDENTIALS: usize = 256;

// A name as it is kept, the first `len` of its bytes, zeros after them: clauses see these bytes. No `ArrayVec`,
// since a name may be copied.
#[derive(Clone, Copy, Debug)]
pub struct Name {
    bytes: [u8; NAME_LENGTH],
    len: u8,
}

impl Model for Name {
    ghost use Rattle.std.specs.Prelude.{ℕ, ◌≡◌, ◌-◌, ◌≤◌, List, ◌++◌, length, take, replicate};
    ghost use Rattle.book.specs.Padded.{long, padded};

    ghost Value = { List ℕ };

    ghost view = { λ n. take n.len n.bytes };

    ghost invariant = { λ n. (n.len ≤ 24) × (length n.bytes ≡ 24) × (n.bytes ≡ take n.len n.bytes ++ replicate (24 - n.len) 0) };

    ghost inverse = { λ w. record { bytes = w ++ replicate (24 - length w) 0; len = length w } };

    ghost inverse_ok = { λ n h i. record {
      bytes = padded n.len n.bytes h.0 h.1 h.2 i;
      len = long n.len n.bytes h.0 h.1 i;
    } };
}

// The names of one kind, in order of enrolment: a name's place is its number, a byte. There may be
// MOST of them, and the room for all is reserved when the list is made.
#[derive(Drop)]
pub struct NameList<const MOST: usize> {
    names: Vec<Name>,
    ghost room: { (MOST ≤ vec_capacity names) × (vec_len names ≤ MOST) },
    ghost numbered: { MOST ≤ 256 },
}

// The names enrolled. No call wants memory once it is made.
#[derive(Drop)]
pub struct Register {
    entities: NameList<ENTITIES>,
    role_names: NameList<ROLE_NAMES>,
}

// The credentials in force, in order of place. All room is reserved when it is made. A vector of its own, as a slip
// and a list of names have: one type for the three would pass on five methods of the vector, to save each a
// test of its length.
#[derive(Drop)]
pub struct Book {
    credentials: Vec<Credential>,
    ghost room: { (256 ≤ vec_capacity credentials) × (vec_len credentials ≤ 256) },
}
