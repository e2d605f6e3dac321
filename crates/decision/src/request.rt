use credential::Record;
use rules::Membership;

// What is asked: whether the goal has at least the threshold.
#[derive(Clone, Copy, PartialEq, Eq, Debug)]
pub struct Request {
    pub goal: Membership,
    pub threshold: Record,
}
