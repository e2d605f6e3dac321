// The first line. One that is refused ends the run.
use crate::run::all;
use std::test::Fail;

const CASES: &[(&[u8], &str)] = &[
    (b"RTW 0001\n", ""),
    // Nothing, and an empty line.
    (b"", "refused 17 byte 1\n"),
    (b"\n", "refused 17 byte 1\n"),
    // Another mark.
    (b"RTX 0001\n", "refused 17 byte 1\n"),
    (b"rtw 0001\n", "refused 17 byte 1\n"),
    (b" RTW 0001\n", "refused 17 byte 1\n"),
    (b"\xef\xbb\xbfRTW 0001\n", "refused 17 byte 1\n"),
    (b"RTW\t0001\n", "refused 17 byte 1\n"),
    (b"RTW0001\n", "refused 17 byte 1\n"),
    // Another version.
    (b"RTW 0002\n", "refused 17 byte 5\n"),
    (b"RTW 1\n", "refused 17 byte 5\n"),
    (b"RTW 00010\n", "refused 17 byte 5\n"),
    (b"RTW 0001\r\n", "refused 17 byte 5\n"),
    (b"RTW \n", "refused 17 byte 5\n"),
    (b"RTW  0001\n", "refused 17 byte 5\n"),
    // A word too few or too many.
    (b"RTW\n", "refused 17 byte 4\n"),
    (b"RTW 0001 \n", "refused 17 byte 10\n"),
    (b"RTW 0001 2\n", "refused 17 byte 10\n"),
    // No line feed.
    (b"RTW", "refused 17 byte 4\n"),
    (b"RTW 0001", "refused 17 byte 9\n"),
    (b"RTW 0002", "refused 17 byte 5\n"),
    (b"RTW 0001 ", "refused 17 byte 10\n"),
    // What follows is not looked at, and a second first line is no line.
    (b"RTW 0002\nenrol 9\n\n", "refused 17 byte 5\n"),
    (b"RTW 0001\nRTW 0001\n", "refused 17 byte 1\n"),
];

#[test]
fn first_lines(rt: HostRuntime) -> Result<(), Fail> {
    all(&rt, rt.alloc(), b"", CASES)
}
