// Decide on the scale that a word names, over the book and the slip.
use book::{Book, Register};
use credential::{Body, Claim, Entity, Record, Role, RoleName};
use decision::{DecideRefusal, Request, Verdict};
use rules::Membership;
use ruling::asking::ScaleWord;
use ruling::{Asked, Weight, decide_asked};
use source::{Origin, Slip};
use std::alloc::Global;
use std::process::Abort;
use std::test::Fail;

// The names, in order of enrolment within their kind.
const FORGE: u8 = 0;

const PIXEL: u8 = 1;

const DANA: u8 = 2;

const PUSH: u8 = 0;

const LEAD: u8 = 1;

const VOUCH: u8 = 2;

const NAMES: &[&str] = &["Forge", "Pixel", "Dana", "push", "lead", "vouch"];

fn role(entity: u8, name: u8) -> Role {
    Role {
        entity: Entity(entity),
        name: RoleName(name),
    }
}

fn record(ceiling: i32, distance: i32) -> Record {
    Record { ceiling, distance }
}

// Whether Dana belongs to Forge.push with at least the threshold.
fn asked(scale: ScaleWord, threshold: Record) -> Asked {
    Asked {
        scale,
        request: Request {
            goal: Membership {
                role: role(FORGE, PUSH),
                member: Entity(DANA),
            },
            threshold,
        },
    }
}

fn register(rt: &impl Abort, heap: Global) -> Result<Register, Fail> {
    let mut register = Register::new(heap)?;
    for name in NAMES {
        assert!(rt; register.enrol(name.as_bytes()).is_ok());
    }
    Ok(register)
}

// A link over whom Forge vouches for, and Dana at once, nearer and lower.
fn book(rt: &impl Abort, heap: Global, register: &Register) -> Result<Book, Fail> {
    let mut book = Book::new(heap)?;
    let claims = [
        Claim {
            head: role(FORGE, PUSH),
            body: Body::Link(role(FORGE, VOUCH), RoleName(LEAD)),
        },
        Claim {
            head: role(FORGE, VOUCH),
            body: Body::Member(Entity(PIXEL), record(5000, 1)),
        },
        Claim {
            head: role(PIXEL, LEAD),
            body: Body::Member(Entity(DANA), record(2000, 2)),
        },
        Claim {
            head: role(FORGE, PUSH),
            body: Body::Member(Entity(DANA), record(800, 1)),
        },
    ];
    for claim in claims {
        assert!(rt; book.add(register, claim).is_ok());
    }
    Ok(book)
}

#[test]
fn each_scale(rt: HostRuntime) -> Result<(), Fail> {
    let heap = rt.alloc();
    let register = register(&rt, heap)?;
    let book = book(&rt, heap, &register)?;
    let mut slip = Slip::new(heap)?;
    let unlimited = record(-1, -1);
    assert_eq!(rt;
        decide_asked(&register, &book, &slip, asked(ScaleWord::Yes, unlimited)),
        Ok(Verdict::Granted {
            weight: Weight::Yes,
            steps: 1,
            rounds: 2
        })
    );
    assert_eq!(rt;
        decide_asked(
            &register,
            &book,
            &slip,
            asked(ScaleWord::Ceiling, record(1500, -1))
        ),
        Ok(Verdict::Granted {
            weight: Weight::Ceiling(2000),
            steps: 3,
            rounds: 3
        })
    );
    assert_eq!(rt;
        decide_asked(
            &register,
            &book,
            &slip,
            asked(ScaleWord::Distance, record(-1, 0))
        ),
        Ok(Verdict::Denied {
            best: Some(Weight::Distance(1)),
            rounds: 2
        })
    );
    assert_eq!(rt;
        decide_asked(
            &register,
            &book,
            &slip,
            asked(ScaleWord::Nearest, unlimited)
        ),
        Ok(Verdict::Granted {
            weight: Weight::Nearest {
                distance: 1,
                ceiling: 800
            },
            steps: 1,
            rounds: 2
        })
    );
    // What stands on the slip counts, and is judged as the book is.
    let presented = Claim {
        head: role(FORGE, PUSH),
        body: Body::Member(Entity(DANA), record(-2, 0)),
    };
    assert!(rt; slip.present(presented).is_ok());
    assert_eq!(rt;
        decide_asked(
            &register,
            &book,
            &slip,
            asked(ScaleWord::Distance, record(-1, 0))
        ),
        Ok(Verdict::Granted {
            weight: Weight::Distance(0),
            steps: 1,
            rounds: 2
        })
    );
    assert_eq!(rt;
        decide_asked(
            &register,
            &book,
            &slip,
            asked(ScaleWord::Ceiling, record(1500, -1))
        ),
        Err(DecideRefusal::BadCredential(Origin { layer: 2, place: 0 }))
    );
    Ok(())
}
