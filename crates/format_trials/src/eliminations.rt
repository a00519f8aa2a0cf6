//! Matrices whose columns are eliminated.

use super::rows::expect;
use app_laws::{App, serial};
use cell_store::{Held, value_laws};
use gf2_eliminate::{Line2, Matrix, OneSet};
use kdg_text::{NoRoom, Text};
use mtx_reader::read_mtx;
use std::alloc::Global;
use std::test::Fail;

/// The matrix of a pattern of this symmetry, whose file has these lines below the banner.
fn matrix_of(alloc: Global, symmetry: &str, lines: &str) -> Result<Matrix, Fail> {
    let mut input = Text::new(alloc);
    input.push_all(b"%%MatrixMarket matrix coordinate pattern ")?;
    input.push_all(symmetry.as_bytes())?;
    input.push_byte(b'\n')?;
    input.push_all(lines.as_bytes())?;
    Ok(Matrix::new(alloc, read_mtx(alloc, input.bytes())?))
}

/// Whether a matrix has this many cells and first tasks of these priorities.
fn begins_with(matrix: &Matrix, cells: usize, prios: &[u64]) -> Result<bool, Fail> {
    let starts = matrix.first_tasks()?;
    for (start, prio) in starts.items().iter().zip(prios) {
        if start.prio != *prio {
            return Ok(false);
        }
    }
    let have_cells = matrix.first_cells()?.len() == cells && matrix.cells() as usize == cells;
    Ok(have_cells && starts.items().len() == prios.len())
}

/// Ascending places in the first, the second and the fifth word of a set.
const PLACES: [u32; 5] = [0, 3, 64, 127, 300];

/// The set of those places.
fn five_ones(alloc: Global) -> Result<OneSet, NoRoom> {
    OneSet::from_vec(Vec::from_array(alloc, PLACES)?)
}

/// Whether a line has ones at those places, and is a row that was a pivot, another row, or a column.
fn is_line_of_five(line: &Line2, used: Option<bool>) -> Result<bool, NoRoom> {
    match line {
        Line2::Row { cols, used: was } => {
            Ok(cols.places()?.as_slice() == PLACES.as_slice() && used == Some(*was))
        }
        Line2::Col { rows } => {
            Ok(rows.places()?.as_slice() == PLACES.as_slice() && used.is_none())
        }
    }
}

/// What a matrix prints in a serial run.
fn print_of(alloc: Global, matrix: &Matrix) -> Result<Text, Fail> {
    value_laws::<Line2>();
    let cells = matrix.first_cells()?;
    let first = matrix.first_tasks()?;
    let finals = serial(alloc, matrix, cells, first, 1000)?;
    let last_lines = matrix.print_finals(&finals.store)?;
    let mut text = finals.text;
    text.push_all(last_lines.bytes())?;
    Ok(text)
}

#[test]
fn matrices_begin(rt: HostRuntime) -> Result<(), Fail> {
    let alloc = rt.alloc();
    let three = matrix_of(alloc, "general", "3 3 5\n1 1\n1 2\n2 1\n2 3\n3 3")?;
    assert!(rt; begins_with(&three, 6, &[1, 2, 3])?);
    let none = matrix_of(alloc, "general", "0 0 0")?;
    assert!(rt; begins_with(&none, 0, &[])?);
    Ok(())
}

/// The symmetry of a pattern, the lines of its file below the banner, and what its matrix prints.
const REDUCED: &[(&str, &str, &str)] = &[
    (
        "general",
        "3 3 5\n1 1\n1 2\n2 1\n2 3\n3 3",
        "col 1 row 1\ncol 2 row 2\ncol 3 row 3\nrow 1 1\nrow 2 2\nrow 3 3\nrank 3\n",
    ),
    // a column without a one
    (
        "general",
        "2 2 2\n2 2\n2 2",
        "col 1 free\ncol 2 row 2\nrow 1\nrow 2 2\nrank 1\n",
    ),
    (
        "symmetric",
        "% c\n3 3 2\n2 1\n3 2",
        "col 1 row 2\ncol 2 row 1\ncol 3 free\nrow 1 2\nrow 2 1 3\nrow 3\nrank 2\n",
    ),
    (
        "general",
        "3 4 6\n1 1\n1 3\n2 2\n2 4\n3 3\n3 4",
        "col 1 row 1\ncol 2 row 2\ncol 3 row 3\ncol 4 free\nrow 1 1 4\nrow 2 2 4\nrow 3 3 4\nrank 3\n",
    ),
    (
        "general",
        "2 2 2\n1 1\n2 2",
        "col 1 row 1\ncol 2 row 2\nrow 1 1\nrow 2 2\nrank 2\n",
    ),
    ("general", "0 0 0", "rank 0\n"),
    ("general", "2 0 0", "row 1\nrow 2\nrank 0\n"),
];

#[test]
fn matrices_are_reduced(rt: HostRuntime) -> Result<(), Fail> {
    for &(symmetry, lines, want) in REDUCED {
        let matrix = matrix_of(rt.alloc(), symmetry, lines)?;
        let print = print_of(rt.alloc(), &matrix)?;
        expect(&rt, print.bytes() == want.as_bytes(), lines);
    }
    Ok(())
}

#[test]
fn a_set_has_the_places_of_its_vector(rt: HostRuntime) -> Result<(), Fail> {
    let ones = five_ones(rt.alloc())?;
    assert!(rt; ones.places()?.as_slice() == PLACES.as_slice());
    Ok(())
}

#[test]
fn a_copy_of_a_line_is_equal(rt: HostRuntime) -> Result<(), Fail> {
    for used in [false, true] {
        let row = Line2::Row {
            cols: five_ones(rt.alloc())?,
            used,
        };
        assert!(rt; is_line_of_five(&row.copy()?, Some(used))?);
    }
    let column = Line2::Col {
        rows: five_ones(rt.alloc())?,
    };
    assert!(rt; is_line_of_five(&column.copy()?, None)?);
    Ok(())
}
