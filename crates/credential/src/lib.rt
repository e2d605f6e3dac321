// What the gate is told: credentials over numbered entities and role names.
#![tactic(auto)]

ghost use Rattle.std.specs.Prelude.{◌≡◌, Decides};
ghost use Rattle.credential.specs.Same.{statement_of, says};

// The number of an entity, from 0 in order of enrolment.
#[derive(Clone, Copy, PartialEq, Eq, Debug)]
pub struct Entity(pub u8);

// The number of a role name, from 0 in order of enrolment.
#[derive(Clone, Copy, PartialEq, Eq, Debug)]
pub struct RoleName(pub u8);

// A role `A.r`: the role that the entity A calls r.
#[derive(Clone, Copy, PartialEq, Eq, Debug)]
pub struct Role {
    pub entity: Entity,
    pub name: RoleName,
}

// A weight record: what a membership carries, and what a threshold is stated in. The project's formats
// write -1, and any number may be stated: what it means, and which are unreadable, is each scale's to say.
#[derive(Clone, Copy, PartialEq, Eq, Debug)]
pub struct Record {
    // In bytes. -1 in a credential: no ceiling is stated. -1 in a threshold: the size is unknown.
    pub ceiling: i32,
    // In points. Never -1 in a credential. -1 in a threshold: unlimited, which is 1,000,000.
    pub distance: i32,
}

// Who belongs to the head. W is what a membership carries, and only a membership: a `Record` in a
// credential, nothing in a bare statement.
#[derive(Clone, Copy, PartialEq, Eq, Debug)]
pub enum Body<W> {
    // `X`: the entity X.
    Member(Entity, W),
    // `B.s`: each member of B.s.
    Delegation(Role),
    // `B.s.t`: each member of C.t, for each member C of B.s.
    Link(Role, RoleName),
    // `B.s & C.t`: each member of both.
    Intersection(Role, Role),
}

#[derive(Clone, Copy, PartialEq, Eq, Debug)]
pub struct Claim<W> {
    pub head: Role,
    pub body: Body<W>,
}

// A statement with its weight, as it is added.
pub type Credential = Claim<Record>;

// A statement, weights aside, as it is withdrawn.
pub type Statement = Claim<()>;

impl Claim<Record> {
    // What it states, its weight aside. A match and no `From`: that would hold the same arms, and callers read
    // `c.statement()`.
    pub fn statement(&self) -> Statement
        ensures { result ≡ statement_of self.now }
    {
        let body = match self.body {
            Body::Member(x, _) => Body::Member(x, ()),
            Body::Delegation(b) => Body::Delegation(b),
            Body::Link(b, t) => Body::Link(b, t),
            Body::Intersection(b, c) => Body::Intersection(b, c),
        };
        Claim {
            head: self.head,
            body,
        }
    }

    // Whether it is this statement: head and body agree, in order, weights aside.
    pub fn says(&self, statement: &Statement) -> bool
        ensures value { result ≡ says statement.now self.now }
        ensures means { Decides result (statement_of self.now ≡ statement.now) }
    {
        self.statement() == *statement
    }
}
