// Commands, and how lines end.
use crate::run::all;
use std::test::Fail;

const START: &[u8] = b"RTW 0001\nenrol A\nenrol B\nenrol r\n";

// No command stands first.
const COMMANDS: &[(&[u8], &str)] = &[
    (b"\n", "refused 17 byte 1\n"),
    (b" \n", "refused 17 byte 1\n"),
    (b"\r\n", "refused 17 byte 1\n"),
    (b"\x00\n", "refused 17 byte 1\n"),
    (b"\xff\n", "refused 17 byte 1\n"),
    (b" enrol C\n", "refused 17 byte 1\n"),
    (b"\tenrol C\n", "refused 17 byte 1\n"),
    (b"enrol\tC\n", "refused 17 byte 1\n"),
    (b"enroll C\n", "refused 17 byte 1\n"),
    (b"Enrol C\n", "refused 17 byte 1\n"),
    (b"enro C\n", "refused 17 byte 1\n"),
    (b"ADD A.r <- B : 0 0\n", "refused 17 byte 1\n"),
    (b"addA.r <- B : 0 0\n", "refused 17 byte 1\n"),
    (b"remove A.r <- B\n", "refused 17 byte 1\n"),
    (b"A.r <- B : 0 0\n", "refused 17 byte 1\n"),
    (b"# add\n", "refused 17 byte 1\n"),
];

// The last line.
const LAST: &[(&[u8], &str)] = &[
    // Nothing after the last line feed is no line, and an empty line is one.
    (b"", ""),
    (b"enrol C\n", ""),
    (b"enrol C\n\n", "refused 17 byte 1\n"),
    (
        b"\n\n\n",
        "refused 17 byte 1\nrefused 17 byte 1\nrefused 17 byte 1\n",
    ),
    // No line feed: told just past the line, whatever the line asks for.
    (b"enrol C", "refused 17 byte 8\n"),
    (b"enrol A", "refused 17 byte 8\n"),
    (b"enrol 9", "refused 17 byte 8\n"),
    (b"enrol C\r", "refused 17 byte 9\n"),
    (b"add A.r <- B : 0 0", "refused 17 byte 19\n"),
    (b"add D.u <- E : -2 0", "refused 17 byte 20\n"),
    (b"withdraw A.r <- B", "refused 17 byte 18\n"),
    (
        b"add A.r <- B : 0 0\nwithdraw A.r <- B",
        "refused 17 byte 18\n",
    ),
    // An earlier fault of such a line is told instead.
    (b"x", "refused 17 byte 1\n"),
    (b" ", "refused 17 byte 1\n"),
    (b"enrol", "refused 17 byte 6\n"),
    (b"enrol ", "refused 17 byte 7\n"),
    (b"enrol C D", "refused 17 byte 9\n"),
    (b"add A.r <- B : 00 0", "refused 17 byte 16\n"),
    (b"\nenrol C", "refused 17 byte 1\nrefused 17 byte 8\n"),
];

// A byte that is neither a space nor a line feed belongs to its word.
const BYTES: &[(&[u8], &str)] = &[
    (b"add A.r\t<- B : 0 0\n", "refused 17 byte 5\n"),
    (b"add A.r <- B\t: 0 0\n", "refused 17 byte 12\n"),
    (b"add A.r <- B : 0\t0\n", "refused 17 byte 16\n"),
    (b"add A.r <- B : 0 0\t\n", "refused 17 byte 18\n"),
    (b"add A.r <- B : 0 0\r\n", "refused 17 byte 18\n"),
    (b"add A.r <- B.r\r\n", "refused 17 byte 12\n"),
    (b"add A.r\r\n", "refused 17 byte 5\n"),
    (b"add \xc3\x84.r <- B : 0 0\n", "refused 17 byte 5\n"),
    (b"add A.\xc3\xa4 <- B : 0 0\n", "refused 17 byte 5\n"),
    (b"add A.r \xe2\x86\x90 B : 0 0\n", "refused 17 byte 9\n"),
    (b"add A.r <-\xa0B : 0 0\n", "refused 17 byte 9\n"),
    (b"add A.r <- B\x00 : 0 0\n", "refused 17 byte 12\n"),
];

#[test]
fn commands(rt: HostRuntime) -> Result<(), Fail> {
    all(&rt, rt.alloc(), START, COMMANDS)
}

#[test]
fn last_lines(rt: HostRuntime) -> Result<(), Fail> {
    all(&rt, rt.alloc(), START, LAST)
}

#[test]
fn bytes(rt: HostRuntime) -> Result<(), Fail> {
    all(&rt, rt.alloc(), START, BYTES)
}
