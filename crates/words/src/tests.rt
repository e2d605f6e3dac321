use super::{Part, Parts, read_integer};
use std::process::Abort;
use std::test::Fail;

// The next part is `text`, at `byte`.
fn follows(rt: &impl Abort, parts: &mut Parts, byte: usize, text: &[u8]) -> Result<(), Fail> {
    let Some(part) = parts.next() else {
        return Err(Fail::new("no part is left"));
    };
    assert_eq!(rt; part.byte, byte);
    assert_eq!(rt; part.text, text);
    Ok(())
}

fn ends(rt: &impl Abort, parts: &mut Parts) {
    assert!(rt; parts.next().is_none());
}

#[test]
fn parts_of_a_line(rt: HostRuntime) -> Result<(), Fail> {
    let mut empty = Part::whole(b"").split(b' ');
    follows(&rt, &mut empty, 1, b"")?;
    ends(&rt, &mut empty);
    ends(&rt, &mut empty);

    let mut words = Part::whole(b" add  A.r. ").split(b' ');
    follows(&rt, &mut words, 1, b"")?;
    follows(&rt, &mut words, 2, b"add")?;
    follows(&rt, &mut words, 6, b"")?;
    let Some(role) = words.next() else {
        return Err(Fail::new("no role"));
    };
    let mut names = role.split(b'.');
    follows(&rt, &mut names, 7, b"A")?;
    follows(&rt, &mut names, 9, b"r")?;
    follows(&rt, &mut names, 11, b"")?;
    ends(&rt, &mut names);
    follows(&rt, &mut words, 12, b"")?;
    ends(&rt, &mut words);
    Ok(())
}

#[test]
fn integers(rt: HostRuntime) {
    let table: [(&[u8], Option<i32>); 16] = [
        (b"0", Some(0)),
        (b"-1", Some(-1)),
        (b"2147483647", Some(2147483647)),
        (b"2147483648", None),
        (b"-2147483648", Some(-2147483648)),
        (b"-2147483649", None),
        (b"00", None),
        (b"01", None),
        (b"-0", None),
        (b"-", None),
        (b"", None),
        (b"+1", None),
        (b"1a", None),
        (b"1\xc3\xa9", None),
        (b"1\xff", None),
        (b"1234567890123456789012345678901234567890", None),
    ];
    for (word, number) in table {
        assert_eq!(rt; read_integer(word), number);
    }
}
