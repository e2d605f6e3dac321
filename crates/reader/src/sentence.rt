use credential::Record;
use words::Part;

// The written forms are types of their own: in `Role` and `Body` entities and role names are two types, and
// here both are names.

// A role as it is written, `A.r`. N is how a name is told: as a part of a line, or by its bytes.
#[derive(Clone, Copy)]
pub struct RoleText<N> {
    pub entity: N,
    pub name: N,
}

// A body as it is written. W is what a membership carries: a record, or nothing.
#[derive(Clone, Copy)]
pub enum Phrase<N, W> {
    // `X`
    Member(N, W),
    // `B.s`
    Delegation(RoleText<N>),
    // `B.s.t`
    Link(RoleText<N>, N),
    // `B.s & C.t`
    Intersection(RoleText<N>, RoleText<N>),
}

// A statement as it is written, `A.r <- ` and a body.
#[derive(Clone, Copy)]
pub struct Sentence<N, W> {
    pub head: RoleText<N>,
    pub body: Phrase<N, W>,
}

// What a line asks for; its names are parts of the line.
#[derive(Clone, Copy)]
pub enum Command<'a> {
    Enrol(Part<'a>),
    Add(Sentence<Part<'a>, Record>),
    Withdraw(Sentence<Part<'a>, ()>),
    Present(Sentence<Part<'a>, Record>),
}
