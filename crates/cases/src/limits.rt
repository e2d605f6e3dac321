// How much there may be: names, credentials and bytes.
use crate::run::{all, prints};
use std::alloc::Global;
use std::test::Fail;

// A first line, and `entities` entities and `role_names` role names.
fn named(heap: Global, entities: u8, role_names: u8) -> Result<String, Fail> {
    let mut text = String::from_str(heap, "RTW 0001\n")?;
    for i in 0..entities {
        let line = format!(in heap; "enrol E{i}\n")?;
        text.push_str(line.as_str())?;
    }
    for i in 0..role_names {
        let line = format!(in heap; "enrol r{i}\n")?;
        text.push_str(line.as_str())?;
    }
    Ok(text)
}

// 256 credentials over 16 entities and 16 role names.
fn full(heap: Global) -> Result<String, Fail> {
    let mut text = named(heap, 16, 16)?;
    for i in 0..16 {
        for j in 0..16 {
            let line = format!(in heap; "add E{i}.r{j} <- E0 : 0 0\n")?;
            text.push_str(line.as_str())?;
        }
    }
    Ok(text)
}

const ENTITIES: &[(&[u8], &str)] = &[
    (b"enrol E63\n", ""),
    (b"enrol E63\nenrol E64\n", "refused 3\n"),
    // At a full list 1 and 2 still come first.
    (b"enrol E63\nenrol E0\n", "refused 2\n"),
    (b"enrol E63\nenrol E63\n", "refused 2\n"),
    (b"enrol E63\nenrol 9\n", "refused 1\n"),
    (b"enrol E63\nenrol E64 x\n", "refused 17 byte 11\n"),
    // Role names have room of their own, and the last entity can be named.
    (b"enrol E63\nenrol r0\nadd E63.r0 <- E63 : 0 0\n", ""),
    (
        b"enrol E63\nenrol E64\nenrol r0\nadd E0.r0 <- E64 : 0 0\n",
        "refused 3\nrefused 18 byte 14\n",
    ),
];

const ROLE_NAMES: &[(&[u8], &str)] = &[
    (b"enrol r31\n", ""),
    (b"enrol r31\nenrol r32\n", "refused 3\n"),
    (b"enrol r31\nenrol r0\n", "refused 2\n"),
    (b"enrol r31\nenrol r31\n", "refused 2\n"),
    (b"enrol r31\nenrol _\n", "refused 1\n"),
    (b"enrol r31\nenrol E0\nadd E0.r31 <- E0.r31.r31\n", ""),
    (
        b"enrol r31\nenrol r32\nenrol E0\nadd E0.r32 <- E0 : 0 0\n",
        "refused 3\nrefused 18 byte 8\n",
    ),
];

const CREDENTIALS: &[(&[u8], &str)] = &[
    (b"", ""),
    (b"add E0.r0 <- E1 : 0 0\n", "refused 7\n"),
    (b"add E0.r0 <- E1.r0\n", "refused 7\n"),
    (b"add E0.r0 <- E1.r0.r1\n", "refused 7\n"),
    (b"add E0.r0 <- E1.r0 & E1.r1\n", "refused 7\n"),
    // 6, 5, 18 and 17 come first.
    (b"add E0.r0 <- E0 : 0 0\n", "refused 6\n"),
    (b"add E15.r15 <- E0 : 5 7\n", "refused 6\n"),
    (b"add E0.r0 <- E1 : -2 0\n", "refused 5\n"),
    (b"add E0.r0 <- E16 : 0 0\n", "refused 18 byte 14\n"),
    (b"add E0.r0 <- E1 : 0\n", "refused 17 byte 20\n"),
    (b"withdraw E0.r0 <- E1\n", "refused 8\n"),
    // A withdrawal makes room for one.
    (
        b"withdraw E0.r0 <- E0\nadd E0.r0 <- E1 : 0 0\nadd E0.r0 <- E0 : 0 0\n",
        "refused 7\n",
    ),
    (
        b"withdraw E7.r9 <- E0\nadd E7.r9 <- E0 : 5 7\nadd E7.r9 <- E0 : 5 7\nadd E0.r0 <- E1.r0\n",
        "refused 6\nrefused 7\n",
    ),
    // What is refused does not take a place.
    (
        b"withdraw E15.r15 <- E0\nadd E15.r15 <- E0 : -2 0\nadd E0.r0 <- E0 : 0 0\nadd E0.r0 <- E1.r0\n",
        "refused 5\nrefused 6\n",
    ),
];

#[test]
fn entities(rt: HostRuntime) -> Result<(), Fail> {
    let heap = rt.alloc();
    all(&rt, heap, named(heap, 63, 0)?.as_bytes(), ENTITIES)
}

#[test]
fn role_names(rt: HostRuntime) -> Result<(), Fail> {
    let heap = rt.alloc();
    all(&rt, heap, named(heap, 0, 31)?.as_bytes(), ROLE_NAMES)
}

#[test]
fn credentials(rt: HostRuntime) -> Result<(), Fail> {
    let heap = rt.alloc();
    all(&rt, heap, full(heap)?.as_bytes(), CREDENTIALS)
}

#[test]
fn bytes(rt: HostRuntime) -> Result<(), Fail> {
    let heap = rt.alloc();
    // 32,767 bytes, and then 1 or 2 more.
    let letters = "a".repeat(heap, 32_752)?;
    let name = format!(in heap; "RTW 0001\nenrol {letters}")?;
    assert_eq!(rt; name.len(), 32_767);
    all(
        &rt,
        heap,
        name.as_bytes(),
        &[
            (b"\n", "refused 1\n"),
            (b"a", "refused 17 byte 32760\n"),
            (b"\n\n", "too long\n"),
            (b"a\n", "too long\n"),
        ],
    )?;
    // Nothing of an input that is too long is looked at.
    let other = "a".repeat(heap, 32_768)?;
    all(
        &rt,
        heap,
        other.as_bytes(),
        &[(b"", "refused 17 byte 1\n"), (b"a", "too long\n")],
    )
}

// As many lines as there may be.
#[test]
fn lines(rt: HostRuntime) -> Result<(), Fail> {
    let heap = rt.alloc();
    let empty = "\n".repeat(heap, 32_759)?;
    let expected = "refused 17 byte 1\n".repeat(heap, 32_759)?;
    let input = format!(in heap; "RTW 0001\n{empty}")?;
    assert_eq!(rt; input.len(), 32_768);
    prints(&rt, heap, input.as_bytes(), expected.as_str())
}
