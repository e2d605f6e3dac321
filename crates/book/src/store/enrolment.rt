// The register: names are enrolled, found by their spelling and spelled by their number.
ghost use Rattle.std.specs.Prelude.{◌≡◌, ◌<◌, ◌≤◌, [], length, IfSome, IfOk, nat_lt, slice_get};
ghost use Rattle.std.specs.Option.{option_map};
ghost use Rattle.book.specs.declared.store.Book.{Book as AnyBook};
ghost use Rattle.book.specs.Plain.{answer, next, enrol};
ghost use Rattle.book.specs.Kept.{entities, role_names, plain, enrol_said, StandsAfter, name_number, names_of};

use super::list::number_of;
use super::names::kind_of;
use super::number::NameNumber;
use super::*;
use crate::refusal::{Enrolled, Kind, Refusal};
use credential::{Entity, RoleName};
use std::alloc::{AllocError, Global};

impl Register {
    pub fn new(heap: Global) -> Result<Register, AllocError>
        ensures { IfOk result (λ g. (entities g ≡ []) × (role_names g ≡ [])) }
    {
        Ok(Register {
            entities: NameList::new(heap)?,
            role_names: NameList::new(heap)?,
        })
    }

    // Here and in the book a call's three clauses stay apart: one fact over them would have to be opened.
    pub fn enrol(&mut self, word: &[u8]) -> Result<Enrolled, Refusal>
        ensures answers { (b : AnyBook) → enrol_said result ≡ answer (plain self.old b) (enrol word.now) }
        ensures changes { (b : AnyBook) → plain self.new b ≡ next (plain self.old b) (enrol word.now) }
        ensures uses { (b : AnyBook) → StandsAfter (plain self.old b) (enrol word.now) (plain self.new b) }
    {
        let kind = kind_of(word).ok_or(Refusal::MalformedName)?;
        let name = Name::of(word);
        match kind {
            Kind::Entity => self.entities.put(name).map(|n| Enrolled::Entity(Entity(n))),
            Kind::RoleName => self
                .role_names
                .put(name)
                .map(|n| Enrolled::RoleName(RoleName(n))),
        }
    }

    // The names of a kind, in order of enrolment.
    pub(super) fn names(&self, kind: Kind) -> &[Name]
        ensures value { result.now ≡ names_of kind self.now }
        ensures few { length result.now ≤ 64 }
    {
        match kind {
            Kind::Entity => self.entities.as_slice(),
            Kind::RoleName => self.role_names.as_slice(),
        }
    }

    // The number of the word among the names of its kind, if it is one of them.
    pub fn find<N: NameNumber>(&self, word: &[u8]) -> Option<N>
        ensures { option_map N.number result ≡ name_number (names_of N.KIND self.now) word.now }
    {
        number_of(self.names(N::KIND), word).map(|n| N::of(n))
    }

    // How the name of this number is spelled.
    pub fn spell<N: NameNumber>(&self, n: N) -> Option<&[u8]>
        ensures value { option_map (λ x. x.now) result ≡ slice_get (names_of N.KIND self.now) (N.number n) }
        ensures short { IfSome result (λ s. length s.now ≤ 24) }
    {
        let name = self.names(N::KIND).get(usize::from(n.number()))?;
        Some(name.text())
    }

    // Whether a name of this number is enrolled.
    pub fn has<N: NameNumber>(&self, n: N) -> bool
        ensures { result ≡ nat_lt (N.number n) (length (names_of N.KIND self.now)) }
    {
        usize::from(n.number()) < self.names(N::KIND).len()
    }
}
