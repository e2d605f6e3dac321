// What decide answers, and the memory that it works in.
ghost use Rattle.std.specs.Prelude.{◌≡◌};
ghost use Rattle.decision.specs.declared.verdict.DecideRefusal.TheVariants as refusal;
ghost use Rattle.decision.specs.Answers.{number};

use rules::{Reason, Step};
use source::Origin;

#[derive(Clone, Copy, PartialEq, Eq, Debug)]
pub enum Verdict<S> {
    // With the goal's settled weight, how many steps its derivation has, and the rounds of settling.
    Granted {
        weight: S,
        steps: usize,
        rounds: usize,
    },
    // With the goal's settled weight, if it has one.
    Denied {
        best: Option<S>,
        rounds: usize,
    },
}

// What decide refuses. `number` in specs/Answers.antt gives each its number.
#[derive(Clone, Copy, PartialEq, Eq, Debug)]
pub enum DecideRefusal {
    GoalNotEnrolled,
    TooManyCredentials,
    // The origin of the first credential with a number not enrolled or an unreadable weight.
    BadCredential(Origin),
    UnreadableThreshold,
    // How many cells each list must have.
    ShortList { need: usize },
}

impl DecideRefusal {
    // Its number in the list of refusals. A match: the cases that carry values have no discriminants to cast.
    pub fn number(self) -> u8
        ensures { result ≡ number self }
    {
        match self {
            DecideRefusal::GoalNotEnrolled => 9,
            DecideRefusal::TooManyCredentials => 10,
            DecideRefusal::BadCredential(_) => 11,
            DecideRefusal::UnreadableThreshold => 12,
            DecideRefusal::ShortList { need: _ } => 13,
        }
    }
}

impl From<Origin> for DecideRefusal {
    ghost from_gives = { λ o r. r ≡ refusal.BadCredential o };

    fn from(origin: Origin) -> DecideRefusal {
        DecideRefusal::BadCredential(origin)
    }
}

// The lists that a caller lends. Both weight lists begin with the final table afterwards, the reason
// list with the reasons, and a grant's steps begin the step list; all beyond is unchanged. Four lists and no list
// of entries: so a caller lends them by the project's rules.
#[derive(Drop)]
pub struct Work<'a, S> {
    pub former: &'a mut [Option<S>],
    pub latest: &'a mut [Option<S>],
    pub reasons: &'a mut [Reason],
    pub steps: &'a mut [Step],
}
