// The book: credentials are added, withdrawn and read by place.
ghost use Rattle.std.specs.Prelude.{◌≡◌, ◌≤◌, [], length, IfOk, nat_lt};
ghost use Rattle.credential.specs.Same.{says};
ghost use Rattle.book.specs.Plain.{place, role_enrolled, body_enrolled, claim_enrolled, record_in_range, in_range, answer, next, add, withdraw};
ghost use Rattle.book.specs.Kept.{at_counts, entities, listed, plain, place_said, StandsAfter};

use super::*;
use crate::refusal::Refusal;
use credential::{Body, Claim, Credential, Entity, Record, Role, RoleName, Statement};
use std::alloc::{AllocError, Global};

// A distance is at most this.
const MOST_POINTS: i32 = 1_000_000;

impl Register {
    // How many entities are enrolled.
    pub fn entity_count(&self) -> usize
        ensures value { result ≡ length (entities self.now) }
        ensures bound { result ≤ 64 }
    {
        self.entities.len()
    }

    pub fn has_role(&self, r: Role) -> bool
        ensures { result ≡ at_counts role_enrolled self.now r }
    {
        self.has(r.entity) && self.has(r.name)
    }

    fn has_body<W: Copy>(&self, body: Body<W>) -> bool
        ensures { result ≡ at_counts body_enrolled self.now body }
    {
        match body {
            Body::Member(x, _) => self.has(x),
            Body::Delegation(b) => self.has_role(b),
            Body::Link(b, t) => self.has_role(b) && self.has(t),
            Body::Intersection(b, c) => self.has_role(b) && self.has_role(c),
        }
    }

    // Whether all numbers of the claim are enrolled.
    pub fn has_claim<W: Copy>(&self, claim: Claim<W>) -> bool
        ensures { result ≡ at_counts claim_enrolled self.now claim }
    {
        self.has_role(claim.head) && self.has_body(claim.body)
    }
}

fn is_record_in_range(w: Record) -> bool
    ensures { result ≡ record_in_range w }
{
    w.ceiling >= -1 && (0..=MOST_POINTS).contains(&w.distance)
}

fn is_in_range(body: Body<Record>) -> bool
    ensures { result ≡ in_range body }
{
    match body {
        Body::Member(_, w) => is_record_in_range(w),
        _ => true,
    }
}

impl Book {
    pub fn new(heap: Global) -> Result<Book, AllocError>
        ensures { IfOk result (λ b. listed b ≡ []) }
    {
        Ok(Book {
            credentials: Vec::with_capacity(heap, CREDENTIALS)?,
        })
    }

    // The credentials in force, in order of place.
    pub fn credentials(&self) -> &[Credential]
        ensures { result.now ≡ listed self.now }
    {
        self.credentials.as_slice()
    }

    // The place of the statement, if it is in force.
    fn place_of(&self, statement: &Statement) -> Option<usize>
        ensures { result ≡ place (says statement.now) (listed self.now) }
    {
        self.credentials.iter().position(|c| c.says(statement))
    }

    pub fn add(&mut self, register: &Register, credential: Credential) -> Result<usize, Refusal>
        ensures answers { place_said result ≡ answer (plain register.now self.old) (add credential) }
        ensures changes { plain register.now self.new ≡ next (plain register.now self.old) (add credential) }
        ensures uses { StandsAfter (plain register.now self.old) (add credential) (plain register.now self.new) }
    {
        if !register.has_claim(credential) {
            return Err(Refusal::NotEnrolled);
        }
        if !is_in_range(credential.body) {
            return Err(Refusal::WeightOutOfRange);
        }
        if self.place_of(&credential.statement()).is_some() {
            return Err(Refusal::AlreadyInForce);
        }
        let place = self.credentials.len();
        if place >= CREDENTIALS {
            return Err(Refusal::BookFull);
        }
        self.credentials.push_reserved(credential);
        Ok(place)
    }

    pub fn withdraw(&mut self, register: &Register, statement: Statement) -> Result<usize, Refusal>
        ensures answers { place_said result ≡ answer (plain register.now self.old) (withdraw statement) }
        ensures changes { plain register.now self.new ≡ next (plain register.now self.old) (withdraw statement) }
        ensures uses { StandsAfter (plain register.now self.old) (withdraw statement) (plain register.now self.new) }
    {
        if !register.has_claim(statement) {
            return Err(Refusal::NotEnrolled);
        }
        let place = self.place_of(&statement).ok_or(Refusal::NotInForce)?;
        let _ = self.credentials.remove(place);
        Ok(place)
    }
}
