// What a line is refused for.
ghost use Rattle.std.specs.Prelude.{◌≡◌};
ghost use Rattle.reader.specs.declared.faults.ReadFault.TheVariants as fault;
ghost use Rattle.reader.specs.Answers.{fault_number};

use book::Refusal;
use source::SlipRefusal;

// The place of the first word that is unfit, empty, extra or missing, or of the missing line feed.
#[derive(Clone, Copy, PartialEq)]
pub struct Malformed {
    pub byte: usize,
}

// The place of the first name that is not enrolled. It has the shape of `Malformed`: by the two types
// `?` tells the faults apart.
#[derive(Clone, Copy, PartialEq)]
pub struct Unknown {
    pub byte: usize,
}

// Bytes are counted from 1. The refusal of the call that the line makes, on the book or on the slip, is
// carried whole.
#[derive(Clone, Copy)]
pub enum ReadFault {
    Malformed { byte: usize },
    Unknown { byte: usize },
    Refused(Refusal),
    NotPresented(SlipRefusal),
}

impl ReadFault {
    // Its number in the list of refusals. A match: the cases carry values, and two carry another refusal.
    pub fn number(self) -> u8
        ensures { result ≡ fault_number self }
    {
        match self {
            ReadFault::Malformed { byte: _ } => 17,
            ReadFault::Unknown { byte: _ } => 18,
            ReadFault::Refused(e) => e.number(),
            ReadFault::NotPresented(e) => e.number(),
        }
    }
}

// Each From by hand: a derived one says nothing of what it gives.
impl From<Malformed> for ReadFault {
    ghost from_gives = { λ e r. r ≡ fault.Malformed e.byte };

    fn from(e: Malformed) -> ReadFault {
        ReadFault::Malformed { byte: e.byte }
    }
}

impl From<Unknown> for ReadFault {
    ghost from_gives = { λ e r. r ≡ fault.Unknown e.byte };

    fn from(e: Unknown) -> ReadFault {
        ReadFault::Unknown { byte: e.byte }
    }
}

impl From<Refusal> for ReadFault {
    ghost from_gives = { λ e r. r ≡ fault.Refused e };

    fn from(e: Refusal) -> ReadFault {
        ReadFault::Refused(e)
    }
}

impl From<SlipRefusal> for ReadFault {
    ghost from_gives = { λ e r. r ≡ fault.NotPresented e };

    fn from(e: SlipRefusal) -> ReadFault {
        ReadFault::NotPresented(e)
    }
}
