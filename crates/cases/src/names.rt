// Enrolment.
use crate::run::all;
use std::test::Fail;

const START: &[u8] = b"RTW 0001\n";

// Each word alone: a name or not.
const WORDS: &[(&[u8], &str)] = &[
    // One letter; a capital begins an entity, a small letter a role name.
    (b"enrol A\n", ""),
    (b"enrol Z\n", ""),
    (b"enrol a\n", ""),
    (b"enrol z\n", ""),
    (b"enrol A_9z\n", ""),
    (b"enrol a_9Z\n", ""),
    // 24 and 25 letters.
    (b"enrol Abcdefghijklmnopqrstuvwx\n", ""),
    (b"enrol Abcdefghijklmnopqrstuvwxy\n", "refused 1\n"),
    (b"enrol abcdefghijklmnopqrstuvwx\n", ""),
    (b"enrol abcdefghijklmnopqrstuvwxy\n", "refused 1\n"),
    // What may follow does not begin a name.
    (b"enrol 9a\n", "refused 1\n"),
    (b"enrol 0\n", "refused 1\n"),
    (b"enrol _a\n", "refused 1\n"),
    (b"enrol _\n", "refused 1\n"),
    // The neighbours of the letters, the digits and the underscore.
    (b"enrol @a\n", "refused 1\n"),
    (b"enrol [a\n", "refused 1\n"),
    (b"enrol `a\n", "refused 1\n"),
    (b"enrol {a\n", "refused 1\n"),
    (b"enrol A@\n", "refused 1\n"),
    (b"enrol A[\n", "refused 1\n"),
    (b"enrol a`\n", "refused 1\n"),
    (b"enrol a{\n", "refused 1\n"),
    (b"enrol A/\n", "refused 1\n"),
    (b"enrol A:\n", "refused 1\n"),
    (b"enrol a^\n", "refused 1\n"),
    (b"enrol a-b\n", "refused 1\n"),
    (b"enrol A.r\n", "refused 1\n"),
    // Bytes above 127, and those that end a line or part words elsewhere.
    (b"enrol \xc3\x84a\n", "refused 1\n"),
    (b"enrol a\xc3\xa4\n", "refused 1\n"),
    (b"enrol A\xff\n", "refused 1\n"),
    (b"enrol A\r\n", "refused 1\n"),
    (b"enrol A\tB\n", "refused 1\n"),
    (b"enrol A\x00\n", "refused 1\n"),
];

// The word is missing, empty or not the last, which is told before a malformed name.
const FORMS: &[(&[u8], &str)] = &[
    (b"enrol\n", "refused 17 byte 6\n"),
    (b"enrol \n", "refused 17 byte 7\n"),
    (b"enrol  A\n", "refused 17 byte 7\n"),
    (b"enrol A \n", "refused 17 byte 9\n"),
    (b"enrol A B\n", "refused 17 byte 9\n"),
    (b"enrol 9 B\n", "refused 17 byte 9\n"),
    (b"enrol A  \n", "refused 17 byte 9\n"),
];

// Names enrolled one after another.
const TWICE: &[(&[u8], &str)] = &[
    (b"enrol Ann\nenrol Ann\n", "refused 2\n"),
    (b"enrol ann\nenrol ann\n", "refused 2\n"),
    // The same letters in both kinds are two names.
    (b"enrol Ann\nenrol ann\nadd Ann.ann <- Ann : 0 0\n", ""),
    (
        b"enrol Ann\nenrol ann\nenrol ann\nenrol Ann\n",
        "refused 2\nrefused 2\n",
    ),
    // Names that only begin alike, or differ in one letter's case.
    (b"enrol Ann\nenrol An\nenrol Anna\nenrol AnN\n", ""),
    // What is refused is not enrolled.
    (b"enrol 9\nenrol 9\n", "refused 1\nrefused 1\n"),
    (b"enrol A B\nenrol A\nenrol B\n", "refused 17 byte 9\n"),
    (
        b"enrol A\nenrol r\nenrol B-\nadd A.r <- B : 0 0\n",
        "refused 1\nrefused 18 byte 12\n",
    ),
];

#[test]
fn words(rt: HostRuntime) -> Result<(), Fail> {
    all(&rt, rt.alloc(), START, WORDS)
}

#[test]
fn forms(rt: HostRuntime) -> Result<(), Fail> {
    all(&rt, rt.alloc(), START, FORMS)
}

#[test]
fn twice(rt: HostRuntime) -> Result<(), Fail> {
    all(&rt, rt.alloc(), START, TWICE)
}
