//! What is answered and printed for matrices.

use crate::answering::{Answer, Print, expect, expect_answers, expect_prints, is_answered};
use kdg_prog::Status;
use std::test::Fail;

/// Columns 1 and 2 have no row in common; column 3 shares row 1 with column 1, and column 4 row 2
/// with column 2 and row 3 with column 3.
const THREE_BY_FOUR: &str =
    "%%MatrixMarket matrix coordinate pattern general\n3 4 6\n1 1\n1 3\n2 2\n2 4\n3 3\n3 4\n";

const THREE_BY_FOUR_PRINT: &str =
    "col 1 row 1\ncol 2 row 2\ncol 3 row 3\ncol 4 free\nrow 1 1 4\nrow 2 2 4\nrow 3 3 4\nrank 3\ntasks 4\n";

/// No two columns have a row in common.
pub const DIAGONAL: &str = "%%MatrixMarket matrix coordinate pattern general\n2 2 2\n1 1\n2 2\n";

const DIAGONAL_PRINT: &str = "col 1 row 1\ncol 2 row 2\nrow 1 1\nrow 2 2\nrank 2\ntasks 2\n";

const ELIMINATED: &[Print] = &[
    (
        "rank",
        "%%MatrixMarket matrix coordinate pattern general\n3 3 5\n1 1\n1 2\n2 1\n2 3\n3 3\n",
        "col 1 row 1\ncol 2 row 2\ncol 3 row 3\nrow 1 1\nrow 2 2\nrow 3 3\nrank 3\ntasks 3\n",
    ),
    (
        "rank",
        "%%MatrixMarket matrix coordinate pattern general\n2 2 2\n2 2\n2 2\n",
        "col 1 free\ncol 2 row 2\nrow 1\nrow 2 2\nrank 1\ntasks 2\n",
    ),
    (
        "rank",
        "%%MatrixMarket matrix coordinate pattern symmetric\n% c\n3 3 2\n2 1\n3 2\n",
        "col 1 row 2\ncol 2 row 1\ncol 3 free\nrow 1 2\nrow 2 1 3\nrow 3\nrank 2\ntasks 3\n",
    ),
    (
        "rank",
        "%%MatrixMarket matrix coordinate integer general\n2 2 4\n1 1 3\n1 2 2\n2 2 -1\n2 2 2\n",
        DIAGONAL_PRINT,
    ),
    ("rank", THREE_BY_FOUR, THREE_BY_FOUR_PRINT),
    ("rank --budget 2", DIAGONAL, DIAGONAL_PRINT),
    (
        "rank",
        "%%MatrixMarket matrix coordinate pattern general\n0 0 0\n",
        "rank 0\ntasks 0\n",
    ),
];

#[test]
fn matrices_are_eliminated(rt: HostRuntime) -> Result<(), Fail> {
    expect_prints(&rt, rt.alloc(), ELIMINATED)
}

/// Words, an input, its print, and the line behind it.
const COUNTED: &[(&str, &str, &str, &str)] = &[
    (
        "rank --stats on",
        THREE_BY_FOUR,
        THREE_BY_FOUR_PRINT,
        "rounds 3\n",
    ),
    ("rank --stats on", DIAGONAL, DIAGONAL_PRINT, "rounds 1\n"),
    (
        "rank --stats on --mode serial",
        THREE_BY_FOUR,
        THREE_BY_FOUR_PRINT,
        "",
    ),
];

#[test]
fn rounds_of_columns_are_counted(rt: HostRuntime) -> Result<(), Fail> {
    for &(words, input, print, rounds) in COUNTED {
        let print = format!(in rt.alloc(); "{print}{rounds}")?;
        let wanted = (Status::Ok, print.as_bytes());
        let is_wanted = is_answered(&rt, rt.alloc(), words, input, 7, wanted)?;
        expect(&rt, is_wanted, words, input);
    }
    Ok(())
}

const BAD_MATRICES: &[Answer] = &[
    (
        "rank",
        "%%MatrixMarket matrix coordinate pattern general\n2 2 3\n1 1\n2 2\n",
        Status::BadInput { line: 5, kind: 6 },
        "",
    ),
    (
        "rank",
        "%%MatrixMarket matrix coordinate pattern general\n4097 1 0\n",
        Status::TooLarge {
            line: 2,
            bound: 4096,
        },
        "",
    ),
    (
        "rank",
        "%%MatrixMarket matrix coordinate integer general\n1 1 1\n1 1\n",
        Status::BadInput { line: 3, kind: 4 },
        "",
    ),
    ("rank", "", Status::BadInput { line: 1, kind: 1 }, ""),
    ("rank --until 5", "", Status::Usage { word: 2 }, ""),
];

#[test]
fn bad_matrices_are_told(rt: HostRuntime) -> Result<(), Fail> {
    expect_answers(&rt, rt.alloc(), 5, BAD_MATRICES)
}
