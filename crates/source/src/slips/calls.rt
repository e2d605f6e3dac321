ghost use Rattle.std.specs.Prelude.{◌≡◌, [], IfOk};
ghost use Rattle.source.specs.Slips.{presented, number, present_said, present_answer, present_next};

use super::*;
use credential::Credential;
use std::alloc::{AllocError, Global};

impl SlipRefusal {
    // Its number in the list of refusals.
    pub fn number(self) -> u8
        ensures { result ≡ number self }
    {
        self as u8
    }
}

impl Slip {
    pub fn new(heap: Global) -> Result<Slip, AllocError>
        ensures { IfOk result (λ s. presented s ≡ []) }
    {
        let credentials = Vec::with_capacity(heap, PRESENTED)?;
        Ok(Slip { credentials })
    }

    // The credentials presented, in order of place.
    pub fn credentials(&self) -> &[Credential]
        ensures { result.now ≡ presented self.now }
    {
        self.credentials.as_slice()
    }

    // Puts it last, and answers its place.
    pub fn present(&mut self, credential: Credential) -> Result<usize, SlipRefusal>
        ensures answers { present_said result ≡ present_answer (presented self.old) }
        ensures changes { presented self.new ≡ present_next (presented self.old) credential }
    {
        let place = self.credentials.len();
        if place >= PRESENTED {
            return Err(SlipRefusal::Full);
        }
        self.credentials.push_reserved(credential);
        Ok(place)
    }

    pub fn clear(&mut self)
        ensures { presented self.new ≡ [] }
    {
        self.credentials.clear();
    }
}
