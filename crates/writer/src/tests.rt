use super::{WriteRefusal, write};
use book::Register;
use credential::{Body, Claim, Credential, Entity, Record, Role, RoleName};
use std::alloc::Global;
use std::process::Abort;
use std::test::Fail;

// The entities Ann and Bob, and the role names x and friend.
fn register(heap: Global) -> Result<Register, Fail> {
    let mut register = Register::new(heap)?;
    for name in [b"Ann".as_slice(), b"Bob", b"x", b"friend"] {
        let _ = register.enrol(name)?;
    }
    Ok(register)
}

fn role(entity: u8, name: u8) -> Role {
    Role {
        entity: Entity(entity),
        name: RoleName(name),
    }
}

fn claim(body: Body<Record>) -> Credential {
    Claim {
        head: role(0, 1),
        body,
    }
}

fn member(entity: u8, ceiling: i32, distance: i32) -> Credential {
    claim(Body::Member(Entity(entity), Record { ceiling, distance }))
}

// The buffer has 43 bytes, one more than the longest of these texts.
fn spells(
    rt: &impl Abort,
    register: &Register,
    credential: Credential,
    text: &[u8],
) -> Result<(), Fail> {
    let mut buffer = [b'#'; 43];
    let len = write(register, &credential, &mut buffer)?;
    assert_eq!(rt; len, text.len());
    assert!(rt; len < buffer.len());
    assert_eq!(rt; &buffer[0..len], text);
    assert_eq!(rt; buffer[len], b'#');
    Ok(())
}

#[test]
fn each_form(rt: HostRuntime) -> Result<(), Fail> {
    let register = register(rt.alloc())?;
    spells(
        &rt,
        &register,
        member(1, -1, 0),
        b"Ann.friend <- Bob : -1 0",
    )?;
    spells(
        &rt,
        &register,
        member(1, -2147483648, 2147483647),
        b"Ann.friend <- Bob : -2147483648 2147483647",
    )?;
    spells(
        &rt,
        &register,
        claim(Body::Delegation(role(1, 0))),
        b"Ann.friend <- Bob.x",
    )?;
    spells(
        &rt,
        &register,
        claim(Body::Link(role(1, 0), RoleName(1))),
        b"Ann.friend <- Bob.x.friend",
    )?;
    spells(
        &rt,
        &register,
        claim(Body::Intersection(role(1, 0), role(0, 0))),
        b"Ann.friend <- Bob.x & Ann.x",
    )
}

#[test]
fn room(rt: HostRuntime) -> Result<(), Fail> {
    let register = register(rt.alloc())?;
    let mut enough = [b'#'; 24];
    assert_eq!(rt; write(&register, &member(1, -1, 0), &mut enough), Ok(24));
    assert_eq!(rt; enough.as_slice(), b"Ann.friend <- Bob : -1 0".as_slice());
    let mut short = [b'#'; 23];
    assert_eq!(rt;
        write(&register, &member(1, -1, 0), &mut short),
        Err(WriteRefusal::BufferTooShort)
    );
    assert_eq!(rt; short, [b'#'; 23]);
    assert_eq!(rt;
        write(&register, &member(1, -1, 0), &mut []),
        Err(WriteRefusal::BufferTooShort)
    );
    Ok(())
}

#[test]
fn a_number_not_enrolled_comes_first(rt: HostRuntime) -> Result<(), Fail> {
    let register = register(rt.alloc())?;
    let mut buffer = [b'#'; 4];
    assert_eq!(rt;
        write(&register, &member(2, -1, 0), &mut buffer),
        Err(WriteRefusal::NotEnrolled)
    );
    assert_eq!(rt;
        write(&register, &claim(Body::Delegation(role(0, 2))), &mut buffer),
        Err(WriteRefusal::NotEnrolled)
    );
    assert_eq!(rt; buffer, [b'#'; 4]);
    Ok(())
}
