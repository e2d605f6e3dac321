use credential::{Entity, Role};

// That an entity belongs to a role.
#[derive(Clone, Copy, PartialEq, Eq, Debug)]
pub struct Membership {
    pub role: Role,
    pub member: Entity,
}

// Why an entry has its weight: the place of the credential that gave it, and the middle of a link,
// which is 0 for any other body. Place 65,535 is no reason. The project's rules fix both numbers.
#[derive(Clone, Copy, PartialEq, Eq, Debug)]
pub struct Reason {
    pub place: u16,
    pub middle: Entity,
}

// One step of a derivation: a credential by its place, the member that the step concludes of the
// credential's head, the middle of a link, and up to two earlier steps by number. Unused fields are 0,
// which the project's rules fix.
#[derive(Clone, Copy, PartialEq, Eq, Debug)]
pub struct Step {
    pub place: u16,
    pub member: Entity,
    pub middle: Entity,
    pub first: u16,
    pub second: u16,
}
