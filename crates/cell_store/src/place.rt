ghost use Rattle.std.specs.Prelude.{◌≡◌, ◌<◌, length, slice_index_or, IsTrue, IfOk};
ghost use Rattle.rw_sets.specs.Accesses.{is_write};
ghost use Rattle.rw_sets.specs.declared.access.Access.TheVariants.{Read, Write};
ghost use Rattle.cell_store.specs.Cells.{AreHome, read_copy};
ghost use Rattle.cell_store.specs.Places.{given_at, taken_at};

use crate::cell::Cell;
use crate::held::Held;
use kdg_text::NoRoom;
use rw_sets::Access;
use std::mem;

/// A copy of the cell at a place of a set, where that is only read, and else an empty cell.
#[inline(always)]
pub(crate) fn copy_at<V: Held>(
    cells: &[Cell<V>],
    set: &[(u32, Access)],
    i: usize,
) -> Result<Cell<V>, NoRoom>
    requires { AreHome cells.now set.now }
    ensures { IfOk result (λ copy. copy ≡ read_copy cells.now (slice_index_or set.now i (0, Write))) }
{
    if i < set.len() {
        let (loc, access) = set[i];
        if !access.is_write() {
            return cells[loc as usize].copy();
        }
    }
    Ok(Cell::Out)
}

/// Exchanges the cell at a place of a set with the one that is held for it, where the set writes it.
#[inline(always)]
pub(crate) fn exchange_at<V>(
    home: &mut [Cell<V>],
    set: &[(u32, Access)],
    i: usize,
    held: &mut Cell<V>,
)
    requires { IsTrue (is_write (slice_index_or set.now i (0, Read)).1) → (slice_index_or set.now i (0, Read)).0 < length home.old }
    ensures home { home.new ≡ given_at home.old (slice_index_or set.now i (0, Read)) held.old }
    ensures held { held.new ≡ taken_at home.old (slice_index_or set.now i (0, Read)) held.old }
{
    if i < set.len() {
        let (loc, access) = set[i];
        if access.is_write() {
            mem::swap(&mut home[loc as usize], held);
        }
    }
}
