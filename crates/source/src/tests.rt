use super::sources::Origin;
use super::{Empty, Join, Slip, SlipRefusal, Source};
use book::{Book, Register};
use credential::{Body, Claim, Credential, Entity, Record, Role, RoleName};
use std::alloc::Global;
use std::test::Fail;

// A membership of entity 0 in `A.r`, A by its number.
fn member(entity: u8) -> Credential {
    Claim {
        head: Role {
            entity: Entity(entity),
            name: RoleName(0),
        },
        body: Body::Member(
            Entity(0),
            Record {
                ceiling: -1,
                distance: 0,
            },
        ),
    }
}

// A book of the memberships with the heads 0 and 1.
fn book_of_two(heap: Global) -> Result<Book, Fail> {
    let mut register = Register::new(heap)?;
    for name in [b"Ann".as_slice(), b"Bob", b"r"] {
        let _ = register.enrol(name)?;
    }
    let mut book = Book::new(heap)?;
    let _ = book.add(&register, member(0))?;
    let _ = book.add(&register, member(1))?;
    Ok(book)
}

#[test]
fn a_slip_takes_sixteen(rt: HostRuntime) -> Result<(), Fail> {
    let mut slip = Slip::new(rt.alloc())?;
    assert_eq!(rt; slip.count(), 0);
    assert_eq!(rt; slip.credential(0), None);
    for i in 0..16u8 {
        assert_eq!(rt; slip.present(member(i)), Ok(i as usize));
    }
    assert_eq!(rt; slip.present(member(16)), Err(SlipRefusal::Full));
    assert_eq!(rt; slip.count(), 16);
    assert_eq!(rt; slip.credential(15), Some(member(15)));
    assert_eq!(rt; slip.credential(16), None);
    assert_eq!(rt; slip.origin(16), None);
    slip.clear();
    assert_eq!(rt; slip.count(), 0);
    Ok(())
}

#[test]
fn a_join_goes_on_after_its_first(rt: HostRuntime) -> Result<(), Fail> {
    let book = book_of_two(rt.alloc())?;
    let mut slip = Slip::new(rt.alloc())?;
    let _ = slip.present(member(7))?;
    let pile = Join::new(Join::new(&book, Empty), &slip);
    assert_eq!(rt; pile.count(), 3);
    assert_eq!(rt; pile.credential(1), Some(member(1)));
    assert_eq!(rt; pile.origin(1), Some(Origin { layer: 1, place: 1 }));
    assert_eq!(rt; pile.credential(2), Some(member(7)));
    assert_eq!(rt; pile.origin(2), Some(Origin { layer: 2, place: 0 }));
    assert_eq!(rt; pile.credential(3), None);
    assert_eq!(rt; pile.origin(3), None);
    Ok(())
}

#[test]
fn the_credentials_come_in_order_of_place(rt: HostRuntime) -> Result<(), Fail> {
    let book = book_of_two(rt.alloc())?;
    let mut slip = Slip::new(rt.alloc())?;
    let _ = slip.present(member(7))?;
    let pile = Join::new(&book, &slip);
    let mut all = pile.iter();
    assert_eq!(rt; all.next(), Some(member(0)));
    assert_eq!(rt; all.next(), Some(member(1)));
    assert_eq!(rt; all.next(), Some(member(7)));
    assert_eq!(rt; all.next(), None);
    assert_eq!(rt; pile.iter().count(), 3);
    Ok(())
}
