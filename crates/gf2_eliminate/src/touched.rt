ghost use Rattle.std.specs.Prelude.{◌≡◌, ℕ, ◌+◌, ◌<◌, ◌^◌, ◌||◌, length, filter, IfOk, OnOk};
ghost use Rattle.std.specs.Ordering.{nat_cmp};
ghost use Rattle.cell_store.specs.Cells.{cell_at};
ghost use Rattle.mtx_reader.specs.Ascending.{IsAscendingBy};
ghost use Rattle.gf2_eliminate.specs.Elimination.{first_of, is_out, writing};
ghost use Rattle.gf2_eliminate.specs.Lines.{has, listed};
ghost use Rattle.gf2_eliminate.specs.Plans.{locations};
ghost use Rattle.gf2_eliminate.specs.Touched.{is_marked, ones_at, touched_locs, AreRowsTo, HaveColumns};

use crate::{Line2, OneSet};
use cell_store::{Seen, Store};
use kdg_text::NoRoom;
use rw_sets::Access;
use std::alloc::Global;

/// The first of these rows whose cell is out, as its location.
pub(crate) fn first_out(store: &Store<Line2>, rows: &[u32]) -> Option<u32>
    requires { AreRowsTo (length store.now) rows.now }
    ensures { result ≡ first_of (filter (λ loc. is_out (cell_at store.now loc)) (locations rows.now)) }
{
    for row in rows {
        let loc = row - 1;
        match store.peek(loc) {
            Seen::At(_) => {}
            Seen::Out => return Some(loc),
        }
    }
    None
}

/// The pairs of the set of a column in which these rows have a one, in a matrix of `size`, its rows and
/// columns.
pub(crate) fn touched(
    alloc: Global,
    size: (u32, u32),
    column: u32,
    rows: &[u32],
    store: &Store<Line2>,
) -> Result<Vec<(u32, Access)>, NoRoom>
    requires rows { AreRowsTo (length store.now) rows.now }
    requires columns { HaveColumns store.now size.1 rows.now }
    requires column { column < size.1 }
    requires few { size.0 + size.1 < 2 ^ 32 }
    ensures { IfOk result (λ pairs. pairs.items ≡ writing (touched_locs size.0 size.1 column rows.now store.now)) }
{
    let others = found(alloc, column, rows, store)?.places()?;
    let mut pairs = Vec::with_capacity(alloc, rows.len() + others.len())?;
    for row in rows {
        pairs.push((row - 1, Access::Write))?;
    }
    for other in others.iter() {
        pairs.push((size.0 + (other - 1), Access::Write))?;
    }
    Ok(pairs)
}

/// The columns in which one of these rows has a one, and the column itself, each counted from 1.
fn found(alloc: Global, column: u32, rows: &[u32], store: &Store<Line2>) -> Result<OneSet, NoRoom>
    requires rows { AreRowsTo (length store.now) rows.now }
    requires column { column + 1 < 2 ^ 32 }
    ensures { (columns : ℕ) → column < columns → HaveColumns store.now columns rows.now →
        IfOk result (λ found. found ≡ listed columns (is_marked store.now column rows.now)) }
{
    let mut found = OneSet::new(alloc);
    found.push(column + 1)?;
    for row in rows {
        include_line(&mut found, store, row - 1)?;
    }
    Ok(found)
}

/// Adds the ones of the line at a location, where there is none if the cell is out.
fn include_line(found: &mut OneSet, store: &Store<Line2>, loc: u32) -> Result<(), NoRoom>
    requires { loc < length store.now }
    ensures both { OnOk result ((n : ℕ) → has found.new n ≡ (has found.old n || has (ones_at store.now loc) n)) }
    ensures ascending { IsAscendingBy nat_cmp found.old → IsAscendingBy nat_cmp found.new }
{
    match store.peek(loc) {
        Seen::At(line) => found.include(line.ones()),
        Seen::Out => Ok(()),
    }
}
