// Which statements are the same, and which refusal comes first.
use crate::run::{all, prints};
use std::alloc::Global;
use std::test::Fail;

const START: &[u8] = b"RTW 0001\nenrol A\nenrol B\nenrol C\nenrol r\nenrol s\nenrol t\n";

// All of these are different statements: all are added, and none twice.
const ALIKE: &[u8] = b"add A.r <- B : 0 0
add A.s <- B : 0 0
add B.r <- B : 0 0
add A.r <- C : 0 0
add A.r <- B.s
add A.r <- C.s
add A.r <- B.t
add A.r <- B.s.t
add A.r <- B.t.s
add A.r <- C.s.t
add A.r <- B.s & C.t
add A.r <- C.t & B.s
add A.r <- B.t & C.s
add A.r <- B.s & B.s
";

const WITHDRAWN: &[u8] = b"withdraw A.r <- B
withdraw A.s <- B
withdraw B.r <- B
withdraw A.r <- C
withdraw A.r <- B.s
withdraw A.r <- C.s
withdraw A.r <- B.t
withdraw A.r <- B.s.t
withdraw A.r <- B.t.s
withdraw A.r <- C.s.t
withdraw A.r <- B.s & C.t
withdraw A.r <- C.t & B.s
withdraw A.r <- B.t & C.s
withdraw A.r <- B.s & B.s
";

const SAME: &[(&[u8], &str)] = &[
    (b"", ""),
    // Weights aside.
    (b"add A.r <- B : 0 0\n", "refused 6\n"),
    (b"add A.r <- B : 5 7\n", "refused 6\n"),
    (b"add A.r <- B.s\n", "refused 6\n"),
    (b"add A.r <- B.s.t\n", "refused 6\n"),
    (b"add A.r <- B.s & C.t\n", "refused 6\n"),
    (b"add A.r <- C.t & B.s\n", "refused 6\n"),
    (b"add A.r <- B.s & B.s\n", "refused 6\n"),
    // Not in force.
    (b"withdraw A.t <- B\n", "refused 8\n"),
    (b"withdraw C.r <- B\n", "refused 8\n"),
    (b"withdraw A.r <- A\n", "refused 8\n"),
    (b"withdraw A.r <- B.r\n", "refused 8\n"),
    (b"withdraw A.r <- B.s.s\n", "refused 8\n"),
    (b"withdraw A.r <- C.s & B.t\n", "refused 8\n"),
    (b"withdraw A.r <- C.t & C.t\n", "refused 8\n"),
    // Withdrawn once, and added again.
    (b"withdraw A.r <- B\nwithdraw A.r <- B\n", "refused 8\n"),
    (
        b"withdraw A.r <- B\nadd A.r <- B : 5 7\nadd A.r <- B : 5 7\n",
        "refused 6\n",
    ),
    (
        b"withdraw A.r <- B.s\nadd A.r <- B.s\nwithdraw A.r <- B.s\nwithdraw A.r <- B.s\n",
        "refused 8\n",
    ),
    // The others stay in force.
    (
        b"withdraw A.r <- B\nadd A.s <- B : 0 0\nadd A.r <- B.s & B.s\nadd A.r <- B.s\n",
        "refused 6\nrefused 6\nrefused 6\n",
    ),
    (
        b"withdraw A.r <- C.t & B.s\nadd A.r <- B.s & C.t\nadd A.r <- C.t & B.s\n",
        "refused 6\n",
    ),
];

// Two or more grounds for a refusal: the one that is told.
const FIRST: &[(&[u8], &str)] = &[
    // 17 before 18, also where the line feed is what is missing.
    (b"add D.r <- B : 0 0 x\n", "refused 17 byte 20\n"),
    (b"add D.u <- E : 0\n", "refused 17 byte 17\n"),
    (b"add D.u <- E : 0 00\n", "refused 17 byte 18\n"),
    (b"add D.r <- B.s & c\n", "refused 17 byte 18\n"),
    (b"withdraw D.r <- B : 0 0\n", "refused 17 byte 19\n"),
    (b"add D.r <- B : 0 0", "refused 17 byte 19\n"),
    // 17 before 5 and before 6.
    (b"add A.r <- B : -2 00\n", "refused 17 byte 19\n"),
    (b"add A.r <- B : 0 0 \n", "refused 17 byte 20\n"),
    // 18 before 5.
    (b"add A.r <- D : -2 0\n", "refused 18 byte 12\n"),
    (b"add A.u <- B : 0 1000001\n", "refused 18 byte 7\n"),
    // 5 before 6.
    (b"add A.r <- B : -2 0\n", "refused 5\n"),
    (b"add A.r <- B : 0 -1\n", "refused 5\n"),
    // 18 before 8.
    (b"withdraw A.r <- D\n", "refused 18 byte 17\n"),
    (b"withdraw A.u <- B.s\n", "refused 18 byte 12\n"),
];

// `ALIKE` after the names, and then `more`.
fn added(heap: Global, more: &[&[u8]]) -> Result<Vec<u8>, Fail> {
    let mut input = Vec::from_slice(heap, START)?;
    input.extend_from_slice(ALIKE)?;
    for lines in more {
        input.extend_from_slice(lines)?;
    }
    Ok(input)
}

#[test]
fn same_statements(rt: HostRuntime) -> Result<(), Fail> {
    let heap = rt.alloc();
    all(&rt, heap, added(heap, &[])?.as_slice(), SAME)
}

#[test]
fn first_grounds(rt: HostRuntime) -> Result<(), Fail> {
    let heap = rt.alloc();
    all(&rt, heap, added(heap, &[])?.as_slice(), FIRST)
}

// Each of them once more.
#[test]
fn each_again(rt: HostRuntime) -> Result<(), Fail> {
    let heap = rt.alloc();
    let stated = "refused 6\n".repeat(heap, 14)?;
    let gone = "refused 8\n".repeat(heap, 14)?;
    let none = added(heap, &[WITHDRAWN])?;
    prints(
        &rt,
        heap,
        added(heap, &[ALIKE])?.as_slice(),
        stated.as_str(),
    )?;
    prints(&rt, heap, none.as_slice(), "")?;
    all(
        &rt,
        heap,
        none.as_slice(),
        &[(WITHDRAWN, gone.as_str()), (ALIKE, "")],
    )
}
