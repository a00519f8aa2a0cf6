//! The engine on a matrix, whose sets move.

ghost use Rattle.std.specs.Prelude.{◌<◌};

use super::recorded_sets::{Accesses, Turn, has_sets_from_start};
use gf2_eliminate::Matrix;
use kdg_text::NoRoom;
use mtx_reader::read_mtx;
use rw_sets::Access::Write;
use std::alloc::Global;
use std::test::Fail;
use task_order::{Key, Path};

/// Columns 1 and 2 have no row in common; column 3 shares row 1 with column 1, and column 4 row 2
/// with column 2 and row 3 with column 3.
const THREE_BY_FOUR: &str =
    "%%MatrixMarket matrix coordinate pattern general\n3 4 6\n1 1\n1 3\n2 2\n2 4\n3 3\n3 4\n";

/// The set that column 3 declares at first, and again once columns 1 and 2 have ended: rows 1 and 3,
/// and the columns of their ones.
const COLUMN_3: Accesses = &[(0, Write), (2, Write), (3, Write), (5, Write), (6, Write)];

/// The set of column 3, merged with that of column 2.
const COLUMN_3_MERGED: Accesses = &[
    (0, Write),
    (1, Write),
    (2, Write),
    (3, Write),
    (4, Write),
    (5, Write),
    (6, Write),
];

/// The set that column 4 declares: rows 2 and 3, and the columns of their ones.
const COLUMN_4: Accesses = &[(1, Write), (2, Write), (4, Write), (5, Write), (6, Write)];

const AT_FIRST: [Accesses; 2] = [COLUMN_3, COLUMN_4];

/// Column 2 ends, and then column 1.
const TURNS: [Turn; 2] = [
    Turn {
        place: 0,
        sets: &[COLUMN_3_MERGED, COLUMN_4],
    },
    Turn {
        place: 0,
        sets: &[COLUMN_3, COLUMN_4],
    },
];

/// The matrix of a pattern.
fn matrix_of(alloc: Global, input: &str) -> Result<Matrix, Fail> {
    Ok(Matrix::new(alloc, read_mtx(alloc, input.as_bytes())?))
}

/// The key of the task of a column, which counts from 1.
fn column(alloc: Global, number: u32) -> Result<Key, NoRoom>
    requires { 0 < number }
{
    Ok(Key {
        prio: u64::from(number),
        path: Path::root(alloc, number - 1)?,
    })
}

/// Columns 3 and 4 wait for both others. Where column 2 ends while column 1 has its lines away, the
/// recorded set of column 3 is merged, and that of column 4 is the declared one; where column 1
/// ends, that of column 3 is the declared one again.
#[test]
fn a_column_has_the_merge_while_a_line_is_away(rt: HostRuntime) -> Result<(), Fail> {
    let keys = [column(rt.alloc(), 3)?, column(rt.alloc(), 4)?];
    assert!(rt; columns_have_sets(rt.alloc(), &keys)?);
    Ok(())
}

/// Whether the tasks of these keys have the sets of the turns.
fn columns_have_sets(alloc: Global, keys: &[Key]) -> Result<bool, Fail> {
    let matrix = matrix_of(alloc, THREE_BY_FOUR)?;
    let have_sets = has_sets_from_start(alloc, &matrix, keys, &AT_FIRST, &TURNS);
    drop(matrix);
    Ok(have_sets?)
}
