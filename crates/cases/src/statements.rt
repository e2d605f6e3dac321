// Statements: how they are written, and which names they have.
use crate::run::all;
use std::test::Fail;

const START: &[u8] = b"RTW 0001\nenrol A\nenrol B\nenrol C\nenrol r\nenrol s\nenrol t\n";

const HEADS: &[(&[u8], &str)] = &[
    (b"add\n", "refused 17 byte 4\n"),
    (b"add \n", "refused 17 byte 5\n"),
    (b"add A <- B : 0 0\n", "refused 17 byte 5\n"),
    (b"add A.r.s <- B : 0 0\n", "refused 17 byte 5\n"),
    (b"add A. <- B : 0 0\n", "refused 17 byte 5\n"),
    (b"add .r <- B : 0 0\n", "refused 17 byte 5\n"),
    (b"add A..r <- B : 0 0\n", "refused 17 byte 5\n"),
    (b"add A.R <- B : 0 0\n", "refused 17 byte 5\n"),
    (b"add a.r <- B : 0 0\n", "refused 17 byte 5\n"),
    (b"add A.r<- B : 0 0\n", "refused 17 byte 5\n"),
    (b"add  A.r <- B : 0 0\n", "refused 17 byte 5\n"),
    (b"add A.r\n", "refused 17 byte 8\n"),
    (b"add A.r \n", "refused 17 byte 9\n"),
    (b"add A.r < B : 0 0\n", "refused 17 byte 9\n"),
    (b"add A.r <-- B : 0 0\n", "refused 17 byte 9\n"),
    (b"add A.r -> B : 0 0\n", "refused 17 byte 9\n"),
    (b"add A.r <-B : 0 0\n", "refused 17 byte 9\n"),
    (b"withdraw\n", "refused 17 byte 9\n"),
    (b"withdraw A <- B\n", "refused 17 byte 10\n"),
    (b"withdraw A.r\n", "refused 17 byte 13\n"),
    (b"withdraw A.r : B\n", "refused 17 byte 14\n"),
];

const BODIES: &[(&[u8], &str)] = &[
    (b"add A.r <-\n", "refused 17 byte 11\n"),
    (b"add A.r <- \n", "refused 17 byte 12\n"),
    (b"add A.r <- b : 0 0\n", "refused 17 byte 12\n"),
    (b"add A.r <- 7 : 0 0\n", "refused 17 byte 12\n"),
    (b"add A.r <- <- : 0 0\n", "refused 17 byte 12\n"),
    (b"add A.r <- B. : 0 0\n", "refused 17 byte 12\n"),
    (b"add A.r <- B.S\n", "refused 17 byte 12\n"),
    (b"add A.r <- B.s.\n", "refused 17 byte 12\n"),
    (b"add A.r <- B.s.T\n", "refused 17 byte 12\n"),
    (b"add A.r <- B.s.t.r\n", "refused 17 byte 12\n"),
    // Only a membership has a weight.
    (b"add A.r <- B.s : 0 0\n", "refused 17 byte 16\n"),
    (b"add A.r <- B.s.t : 0 0\n", "refused 17 byte 18\n"),
    (b"add A.r <- B.s & C.t : 0 0\n", "refused 17 byte 22\n"),
    // An intersection is of two roles.
    (b"add A.r <- B.s &\n", "refused 17 byte 17\n"),
    (b"add A.r <- B.s & \n", "refused 17 byte 18\n"),
    (b"add A.r <- B.s & C\n", "refused 17 byte 18\n"),
    (b"add A.r <- B.s & C.t.r\n", "refused 17 byte 18\n"),
    (b"add A.r <- B.s && C.t\n", "refused 17 byte 16\n"),
    (b"add A.r <- B.s C.t\n", "refused 17 byte 16\n"),
    (b"add A.r <- B.s \n", "refused 17 byte 16\n"),
    (b"add A.r <- B & C.t\n", "refused 17 byte 14\n"),
    (b"add A.r <- B.s.t & C.t\n", "refused 17 byte 18\n"),
    (b"add A.r <- B.s & C.t & C.s\n", "refused 17 byte 22\n"),
    (b"withdraw A.r <-\n", "refused 17 byte 16\n"),
    (b"withdraw A.r <- B & C.t\n", "refused 17 byte 19\n"),
    (b"withdraw A.r <- B.s &\n", "refused 17 byte 22\n"),
    (b"withdraw A.r <- B.s & C.t \n", "refused 17 byte 27\n"),
];

// A name that is not enrolled, at its own byte; of several the leftmost.
const UNKNOWN: &[(&[u8], &str)] = &[
    (b"add D.r <- B : 0 0\n", "refused 18 byte 5\n"),
    (b"add A.u <- B : 0 0\n", "refused 18 byte 7\n"),
    (b"add A.r <- D : 0 0\n", "refused 18 byte 12\n"),
    (b"add A.r <- D.s\n", "refused 18 byte 12\n"),
    (b"add A.r <- B.u\n", "refused 18 byte 14\n"),
    (b"add A.r <- B.s.u\n", "refused 18 byte 16\n"),
    (b"add A.r <- B.s & D.t\n", "refused 18 byte 18\n"),
    (b"add A.r <- B.s & C.u\n", "refused 18 byte 20\n"),
    (b"add D.u <- E : 0 0\n", "refused 18 byte 5\n"),
    (b"add A.u <- E : 0 0\n", "refused 18 byte 7\n"),
    (b"add A.r <- D.u & E.v\n", "refused 18 byte 12\n"),
    (b"add A.r <- B.u.v\n", "refused 18 byte 14\n"),
    (b"add A.r <- B.s & D.u\n", "refused 18 byte 18\n"),
    (b"withdraw D.r <- B\n", "refused 18 byte 10\n"),
    (b"withdraw A.u <- B\n", "refused 18 byte 12\n"),
    (b"withdraw A.r <- D\n", "refused 18 byte 17\n"),
    (b"withdraw A.r <- B.s.u\n", "refused 18 byte 21\n"),
    (b"withdraw A.r <- B.s & C.u\n", "refused 18 byte 25\n"),
    // A longer name moves the byte of what stands behind it.
    (b"enrol Aa\nadd Aa.u <- B : 0 0\n", "refused 18 byte 8\n"),
    // 24 letters may be a name, and 25 are none.
    (
        b"add A.r <- Bcdefghijklmnopqrstuvwxy : 0 0\n",
        "refused 18 byte 12\n",
    ),
    (
        b"add A.r <- Bcdefghijklmnopqrstuvwxyz : 0 0\n",
        "refused 17 byte 12\n",
    ),
];

#[test]
fn heads(rt: HostRuntime) -> Result<(), Fail> {
    all(&rt, rt.alloc(), START, HEADS)
}

#[test]
fn bodies(rt: HostRuntime) -> Result<(), Fail> {
    all(&rt, rt.alloc(), START, BODIES)
}

#[test]
fn unknown_names(rt: HostRuntime) -> Result<(), Fail> {
    all(&rt, rt.alloc(), START, UNKNOWN)
}
