ghost use Rattle.std.specs.Prelude.{◌≡◌, ℕ, ◌<◌, length, IsTrue};
ghost use Rattle.rw_sets.specs.Accesses.{IsAscending, writes};
ghost use Rattle.cell_store.specs.Storage.{cells_of};
ghost use Rattle.cell_store.specs.Cells.{cell_at, cells_given, with_written};

use crate::cell::Cell;
use crate::cell_list::CellList;
use rw_sets::Access;
use std::mem;

/// Exchanges the cells that a set writes with those that are held in the order of the set.
#[inline(always)]
pub(crate) fn exchange<V>(home: &mut [Cell<V>], set: &[(u32, Access)], held: &mut CellList<V>)
    requires ascending { IsAscending set.now }
    requires one_each { length (cells_of held.old) ≡ length set.now }
    requires in_range { (loc : ℕ) → IsTrue (writes set.now loc) → loc < length home.old }
    ensures home { home.new ≡ cells_given home.old (record { set = set.now; cells = cells_of held.old }) }
    ensures held { cells_of held.new ≡ with_written (cell_at home.old) set.now (cells_of held.old) }
{
    match held {
        CellList::InPlace(few) => few.exchange(home, set),
        CellList::InMemory(cells) => exchange_many(home, set, cells),
    }
}

/// Exchanges cells that stand in memory.
#[inline(never)]
fn exchange_many<V>(home: &mut [Cell<V>], set: &[(u32, Access)], held: &mut [Cell<V>])
    requires ascending { IsAscending set.now }
    requires one_each { length held.old ≡ length set.now }
    requires in_range { (loc : ℕ) → IsTrue (writes set.now loc) → loc < length home.old }
    ensures home { home.new ≡ cells_given home.old (record { set = set.now; cells = held.old }) }
    ensures held { held.new ≡ with_written (cell_at home.old) set.now held.old }
{
    for (i, (loc, access)) in set.iter().enumerate() {
        if access.is_write() {
            mem::swap(&mut home[*loc as usize], &mut held[i]);
        }
    }
}
