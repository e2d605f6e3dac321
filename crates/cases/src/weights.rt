// The weight of a membership.
use crate::run::all;
use std::test::Fail;

const START: &[u8] = b"RTW 0001\nenrol A\nenrol B\nenrol r\n";

const INTEGERS: &[(&[u8], &str)] = &[
    (b"add A.r <- B : 2147483647 0\n", ""),
    (b"add A.r <- B : 2147483648 0\n", "refused 17 byte 16\n"),
    (b"add A.r <- B : -2147483648 0\n", "refused 5\n"),
    (b"add A.r <- B : -2147483649 0\n", "refused 17 byte 16\n"),
    (
        b"add A.r <- B : 99999999999999999999 0\n",
        "refused 17 byte 16\n",
    ),
    (b"add A.r <- B : -0 0\n", "refused 17 byte 16\n"),
    (b"add A.r <- B : 00 0\n", "refused 17 byte 16\n"),
    (b"add A.r <- B : 01 0\n", "refused 17 byte 16\n"),
    (b"add A.r <- B : -01 0\n", "refused 17 byte 16\n"),
    (b"add A.r <- B : +1 0\n", "refused 17 byte 16\n"),
    (b"add A.r <- B : - 0\n", "refused 17 byte 16\n"),
    (b"add A.r <- B : --1 0\n", "refused 17 byte 16\n"),
    (b"add A.r <- B : 1a 0\n", "refused 17 byte 16\n"),
    (b"add A.r <- B : 0x1 0\n", "refused 17 byte 16\n"),
    (b"add A.r <- B : 1_0 0\n", "refused 17 byte 16\n"),
    (b"add A.r <- B : 1,0 0\n", "refused 17 byte 16\n"),
    (b"add A.r <- B : 1.0 0\n", "refused 17 byte 16\n"),
    (b"add A.r <- B : A 0\n", "refused 17 byte 16\n"),
    (b"add A.r <- B :  0\n", "refused 17 byte 16\n"),
    (b"add A.r <- B : 0 -0\n", "refused 17 byte 18\n"),
    (b"add A.r <- B : 0 00\n", "refused 17 byte 18\n"),
    (b"add A.r <- B : 0 +0\n", "refused 17 byte 18\n"),
    (b"add A.r <- B : 0 2147483648\n", "refused 17 byte 18\n"),
    (b"add A.r <- B : 0 -2147483649\n", "refused 17 byte 18\n"),
    (b"add A.r <- B : -1 -0\n", "refused 17 byte 19\n"),
];

const RANGES: &[(&[u8], &str)] = &[
    // The ceiling is -1 or more.
    (b"add A.r <- B : 0 0\n", ""),
    (b"add A.r <- B : -1 0\n", ""),
    (b"add A.r <- B : -2 0\n", "refused 5\n"),
    // The distance is from 0 to 1000000.
    (b"add A.r <- B : 0 1\n", ""),
    (b"add A.r <- B : 0 1000000\n", ""),
    (b"add A.r <- B : 0 1000001\n", "refused 5\n"),
    (b"add A.r <- B : 0 -1\n", "refused 5\n"),
    (b"add A.r <- B : 0 2147483647\n", "refused 5\n"),
    (b"add A.r <- B : 0 -2147483648\n", "refused 5\n"),
    (b"add A.r <- B : -1 -1\n", "refused 5\n"),
    (b"add A.r <- B : -1 1000000\n", ""),
    (b"add A.r <- B : 1000001 1000000\n", ""),
    (b"add A.r <- B : 2147483647 1000000\n", ""),
    (b"add A.r <- B : -2 -1\n", "refused 5\n"),
    // What is refused is not in force.
    (b"add A.r <- B : -2 0\nadd A.r <- B : 0 0\n", "refused 5\n"),
    (
        b"add A.r <- B : -2 0\nwithdraw A.r <- B\n",
        "refused 5\nrefused 8\n",
    ),
];

// Words too few, too many or empty.
const FORMS: &[(&[u8], &str)] = &[
    (b"add A.r <- B\n", "refused 17 byte 13\n"),
    (b"add A.r <- B \n", "refused 17 byte 14\n"),
    (b"add A.r <- B :\n", "refused 17 byte 15\n"),
    (b"add A.r <- B : \n", "refused 17 byte 16\n"),
    (b"add A.r <- B : 0\n", "refused 17 byte 17\n"),
    (b"add A.r <- B : 0 \n", "refused 17 byte 18\n"),
    (b"add A.r <- B : 0  0\n", "refused 17 byte 18\n"),
    (b"add A.r <- B : 0 0 \n", "refused 17 byte 20\n"),
    (b"add A.r <- B : 0 0 0\n", "refused 17 byte 20\n"),
    (b"add A.r <- B 0 0\n", "refused 17 byte 14\n"),
    (b"add A.r <- B :0 0\n", "refused 17 byte 14\n"),
    (b"add A.r <- B ; 0 0\n", "refused 17 byte 14\n"),
    (b"add A.r <- B: 0 0\n", "refused 17 byte 12\n"),
    // A withdrawal has no weight.
    (b"withdraw A.r <- B : 0 0\n", "refused 17 byte 19\n"),
    (b"withdraw A.r <- B :\n", "refused 17 byte 19\n"),
    (b"withdraw A.r <- B \n", "refused 17 byte 19\n"),
];

#[test]
fn integers(rt: HostRuntime) -> Result<(), Fail> {
    all(&rt, rt.alloc(), START, INTEGERS)
}

#[test]
fn ranges(rt: HostRuntime) -> Result<(), Fail> {
    all(&rt, rt.alloc(), START, RANGES)
}

#[test]
fn forms(rt: HostRuntime) -> Result<(), Fail> {
    all(&rt, rt.alloc(), START, FORMS)
}
