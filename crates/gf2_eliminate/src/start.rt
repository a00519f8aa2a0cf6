ghost use Rattle.std.specs.Prelude.{◌≡◌, ◌+◌, ◌<◌, ◌^◌, map, length, slice_set, IfOk, OnOk};
ghost use Rattle.std.specs.List.{AllByRecursion};
ghost use Rattle.mtx_reader.specs.Ascending.{numbers_from};
ghost use Rattle.mtx_reader.specs.Patterns.{IsPattern};
ghost use Rattle.gf2_eliminate.specs.Lines.{line_at, numbers_in};
ghost use Rattle.gf2_eliminate.specs.Start.{empty_line, start_cells, start_task, with_number};

use crate::{Line2, OneSet};
use kdg_text::NoRoom;
use mtx_reader::Pattern;
use std::alloc::Global;
use task_order::{Body, Start, StartList};

/// A task for each of `columns` columns, in their order.
pub(crate) fn first_tasks(alloc: Global, columns: u32) -> Result<StartList, NoRoom>
    ensures { IfOk result (λ tasks. tasks ≡ map start_task (numbers_from 0 columns)) }
{
    let mut starts = StartList::new(alloc);
    for column in 0..columns {
        starts.push(Start {
            prio: u64::from(column) + 1,
            body: Body {
                kind: 0,
                at: column,
                arg: 0,
            },
        })?;
    }
    Ok(starts)
}

/// The lines of the matrix with ones at the places of a pattern, rows first.
pub(crate) fn first_cells(alloc: Global, pattern: &Pattern) -> Result<Vec<Line2>, NoRoom>
    requires { IsPattern pattern.now }
    ensures { IfOk result (λ cells. cells.items ≡ start_cells pattern.now) }
{
    let rows = pattern.rows;
    let mut lines = empty_lines(alloc, rows, pattern.cols)?;
    for (row, column) in pattern.places.items() {
        put_one(&mut lines, row - 1, *column)?;
        put_one(&mut lines, rows + (column - 1), *row)?;
    }
    Ok(lines)
}

/// The lines of a matrix of that size without a one.
fn empty_lines(alloc: Global, rows: u32, columns: u32) -> Result<Vec<Line2>, NoRoom>
    requires { rows + columns < 2 ^ 32 }
    ensures { IfOk result (λ lines. lines.items ≡ map (empty_line rows) (numbers_from 0 (rows + columns))) }
{
    let mut lines = Vec::new(alloc);
    for loc in 0..rows + columns {
        lines.push(empty_line(alloc, rows, loc))?;
    }
    Ok(lines)
}

/// The line of a location without a one, where there are `rows` rows.
fn empty_line(alloc: Global, rows: u32, loc: u32) -> Line2
    ensures { result ≡ empty_line rows loc }
{
    if loc < rows {
        Line2::Row {
            cols: OneSet::new(alloc),
            used: false,
        }
    } else {
        Line2::Col {
            rows: OneSet::new(alloc),
        }
    }
}

/// Adds a number behind those of the line of a location.
#[inline(always)]
fn put_one(lines: &mut Vec<Line2>, loc: u32, number: u32) -> Result<(), NoRoom>
    requires there { loc < length lines.old.items }
    requires behind { AllByRecursion (λ other. other < number) (numbers_in (line_at lines.old.items loc)) }
    ensures { OnOk result (lines.new.items ≡ slice_set lines.old.items loc (with_number (line_at lines.old.items loc) number)) }
{
    lines[loc as usize].push(number)
}
