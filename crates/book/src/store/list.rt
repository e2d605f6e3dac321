// The names of one kind: put last, and found by their spelling.
ghost use Rattle.std.specs.Prelude.{◌≡◌, ◌≤◌, [], length, IfOk};
ghost use Rattle.book.specs.Kept.{name_number};
ghost use Rattle.book.specs.Puts.{Puts};

use super::*;
use crate::refusal::Refusal;
use std::alloc::{AllocError, Global};

impl<const MOST: usize> NameList<MOST> {
    pub(super) fn new(heap: Global) -> Result<NameList<MOST>, AllocError>
        requires { MOST ≤ 256 }
        ensures { IfOk result (λ l. l.names.items ≡ []) }
    {
        let names = Vec::with_capacity(heap, MOST)?;
        Ok(NameList { names })
    }

    pub(super) fn len(&self) -> usize
        ensures value { result ≡ length self.now.names.items }
        ensures few { result ≤ MOST }
    {
        self.names.len()
    }

    pub(super) fn as_slice(&self) -> &[Name]
        ensures value { result.now ≡ self.now.names.items }
        ensures few { length result.now ≤ MOST }
    {
        self.names.as_slice()
    }

    // Puts the name last, unless it is there or the list is full.
    pub(super) fn put(&mut self, name: Name) -> Result<u8, Refusal>
        ensures { Puts MOST name self.old.names.items result self.new.names.items }
    {
        if number_of(self.as_slice(), name.text()).is_some() {
            return Err(Refusal::AlreadyEnrolled);
        }
        let place = self.len();
        if place >= MOST {
            return Err(Refusal::RegisterFull);
        }
        self.names.push_reserved(name);
        Ok(place as u8)
    }
}

// The number of the word among these names, if it is one of them.
pub(super) fn number_of(names: &[Name], word: &[u8]) -> Option<u8>
    requires { length names.now ≤ 256 }
    ensures { result ≡ name_number names.now word.now }
{
    names
        .iter()
        .position(|n| word == n.text())
        .map(|place| place as u8)
}
