// Decide on sources and lists of the caller's own: how many credentials and cells there may be.
use book::{Book, Register};
use credential::{Body, Claim, Entity, Record, Role, RoleName};
use decision::{DecideRefusal, Request, Verdict, Work, decide};
use rules::{Membership, Reason, Step};
use scale::yes::Yes;
use source::{Join, Origin, Slip, Source};
use std::alloc::Global;
use std::process::Abort;
use std::test::Fail;

const E0: Entity = Entity(0);

const RECORD: Record = Record {
    ceiling: 0,
    distance: 0,
};

const NO_REASON: Reason = Reason {
    place: 0,
    middle: E0,
};

const NO_STEP: Step = Step {
    place: 0,
    member: E0,
    middle: E0,
    first: 0,
    second: 0,
};

fn role(entity: u8, name: u8) -> Role {
    Role {
        entity: Entity(entity),
        name: RoleName(name),
    }
}

fn register(rt: &impl Abort, heap: Global, entities: u8, role_names: u8) -> Result<Register, Fail> {
    let mut names = Register::new(heap)?;
    for i in 0..entities {
        let name = format!(in heap; "E{i}")?;
        assert!(rt; names.enrol(name.as_str().as_bytes()).is_ok());
    }
    for j in 0..role_names {
        let name = format!(in heap; "r{j}")?;
        assert!(rt; names.enrol(name.as_str().as_bytes()).is_ok());
    }
    Ok(names)
}

// 256 credentials with as many heads, over 16 entities.
fn full_book(rt: &impl Abort, heap: Global, names: &Register) -> Result<Book, Fail> {
    let mut book = Book::new(heap)?;
    for i in 0..16 {
        for j in 0..16 {
            let claim = Claim {
                head: role(i, j),
                body: Body::Member(E0, RECORD),
            };
            assert!(rt; book.add(names, claim).is_ok());
        }
    }
    Ok(book)
}

// Whether E0 is in E15.r15, with so many cells of each list lent.
fn ask<R: Source>(
    names: &Register,
    source: &R,
    weights: usize,
    reasons: usize,
    steps: usize,
) -> Result<Verdict<Yes>, DecideRefusal> {
    let mut former = [None::<Yes>; 4096];
    let mut latest = [None::<Yes>; 4096];
    let mut why = [NO_REASON; 4096];
    let mut how = [NO_STEP; 4096];
    decide(
        names,
        source,
        Request {
            goal: Membership {
                role: role(15, 15),
                member: E0,
            },
            threshold: RECORD,
        },
        Work {
            former: &mut former[0..weights.min(4096)],
            latest: &mut latest[0..4096],
            reasons: &mut why[0..reasons.min(4096)],
            steps: &mut how[0..steps.min(4096)],
        },
    )
}

const GRANTED: Verdict<Yes> = Verdict::Granted {
    weight: Yes,
    steps: 1,
    rounds: 2,
};

#[test]
fn credentials_at_the_limit(rt: HostRuntime) -> Result<(), Fail> {
    let heap = rt.alloc();
    let names = register(&rt, heap, 16, 16)?;
    let book = full_book(&rt, heap, &names)?;
    let mut slip = Slip::new(heap)?;
    let twice = Join::new(&book, &book);
    assert_eq!(rt; ask(&names, &twice, 4096, 4096, 4096), Ok(GRANTED));
    assert_eq!(rt;
        ask(&names, &Join::new(twice, &slip), 4096, 4096, 4096),
        Ok(GRANTED)
    );
    // One more is too many, even where it is bad.
    let claim = Claim {
        head: role(15, 15),
        body: Body::Member(Entity(16), RECORD),
    };
    assert!(rt; slip.present(claim).is_ok());
    assert_eq!(rt;
        ask(&names, &Join::new(twice, &slip), 4096, 4096, 4096),
        Err(DecideRefusal::TooManyCredentials)
    );
    assert_eq!(rt;
        ask(&names, &Join::new(&slip, &book), 4096, 4096, 4096),
        Err(DecideRefusal::BadCredential(Origin { layer: 2, place: 0 }))
    );
    Ok(())
}

#[test]
fn each_list_at_the_limit(rt: HostRuntime) -> Result<(), Fail> {
    let heap = rt.alloc();
    let names = register(&rt, heap, 16, 16)?;
    let book = full_book(&rt, heap, &names)?;
    let short = Err(DecideRefusal::ShortList { need: 4096 });
    assert_eq!(rt; ask(&names, &book, 4096, 4096, 4096), Ok(GRANTED));
    assert_eq!(rt; ask(&names, &book, 4095, 4096, 4096), short);
    assert_eq!(rt; ask(&names, &book, 4096, 4095, 4096), short);
    assert_eq!(rt; ask(&names, &book, 4096, 4096, 4095), short);
    assert_eq!(rt; ask(&names, &book, 0, 0, 0), short);
    Ok(())
}

#[test]
fn goals_not_enrolled(rt: HostRuntime) -> Result<(), Fail> {
    let heap = rt.alloc();
    let names = register(&rt, heap, 16, 15)?;
    let book = Book::new(heap)?;
    assert_eq!(rt;
        ask(&names, &book, 0, 0, 0),
        Err(DecideRefusal::GoalNotEnrolled)
    );
    Ok(())
}
