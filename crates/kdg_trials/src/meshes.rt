//! What is answered and printed for meshes of springs.

use crate::answering::{Answer, Print, expect_answers, expect_prints};
use kdg_prog::Status;
use std::test::Fail;

/// One spring, which pulls twice.
pub const SPRING: &str = "node 0 0 0 0 100\nnode 30 0 0 0 100\nspring 1 2 10 20 0 2\nend 4\n";

const MOVES: &[Print] = &[
    (
        "mesh",
        SPRING,
        "node 1 4 0 2 0\nnode 2 26 0 -2 0\ntasks 2\n",
    ),
    (
        "mesh --budget 1",
        "node 0 0 0 0 3\nnode 10 0 0 0 3\nspring 1 2 1 20 0 1\nend 1\n",
        "node 1 0 0 -4 0\nnode 2 10 0 4 0\ntasks 1\n",
    ),
    (
        "mesh",
        "node 0 0 0 0 100\nnode 30 0 0 0 100\nnode 0 50 0 0 100\nnode 30 50 0 0 100\nspring 1 2 10 20 0 2\nspring 3 4 10 20 0 2\nend 4\n",
        "node 1 4 0 2 0\nnode 2 26 0 -2 0\nnode 3 4 50 2 0\nnode 4 26 50 -2 0\ntasks 4\n",
    ),
    (
        "mesh",
        "node 1099511627776 -1099511627776 1099511627776 0 1\nnode -1099511627776 1099511627776 0 0 1\nspring 1 2 1000000 1099511627776 -1099511627776 1000000000\nend 1000000000\n",
        "node 1 1099511627776 -1099511627776 -1099511627776 1099511627776\nnode 2 -1099511627776 1099511627776 1099511627776 -1099511627776\ntasks 1\n",
    ),
    ("mesh", "end 0\n", "tasks 0\n"),
];

#[test]
fn meshes_move(rt: HostRuntime) -> Result<(), Fail> {
    expect_prints(&rt, rt.alloc(), MOVES)
}

const BAD_MESHES: &[Answer] = &[
    (
        "mesh",
        "node 0 0 0 0 1\n",
        Status::BadInput { line: 2, kind: 5 },
        "",
    ),
    ("mesh --until 5", "", Status::Usage { word: 2 }, ""),
];

#[test]
fn bad_meshes_are_told(rt: HostRuntime) -> Result<(), Fail> {
    expect_answers(&rt, rt.alloc(), 5, BAD_MESHES)
}
