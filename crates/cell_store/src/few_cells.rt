ghost use Rattle.std.specs.Prelude.{◌≤◌};

use crate::cell::Cell;
use crate::held::Held;
use crate::place::{copy_at, exchange_at};
use kdg_text::NoRoom;
use rw_sets::Access;

/// How many cells stand in place at most.
pub(crate) const FEW: usize = 4;

/// Up to four cells in place, which take no memory.
#[derive(Drop)]
pub(crate) struct FewCells<V> {
    first: Cell<V>,
    second: Cell<V>,
    third: Cell<V>,
    fourth: Cell<V>,
    len: usize,
    ghost few: { len ≤ 4 },
}

impl<V> FewCells<V> {
    ghost use Rattle.std.specs.Prelude.{◌≡◌, ℕ, ◌<◌, length, slice_index_or, IsTrue};
    ghost use Rattle.std.specs.Borrow.{sem};
    ghost use Rattle.rw_sets.specs.Accesses.{IsAscending, writes};
    ghost use Rattle.cell_store.specs.Cells.{cell_at, cells_given, with_written};
    ghost use Rattle.cell_store.specs.Storage.{cells_in};
    ghost use Rattle.cell_store.specs.StorageLends.{LendsFewCell};

    pub(crate) fn len(&self) -> usize
        ensures { result ≡ length (cells_in self.now) }
    {
        self.len
    }

    #[inline(always)]
    pub(crate) fn at(&self, i: usize) -> &Cell<V>
        requires { i < self.now.len }
        ensures { result.now ≡ slice_index_or (cells_in self.now) i result.now }
    {
        match i {
            0 => &self.first,
            1 => &self.second,
            2 => &self.third,
            _ => &self.fourth,
        }
    }

    #[inline(always)]
    pub(crate) fn at_mut(&mut self, i: usize) -> &mut Cell<V>
        requires { i < self.old.len }
        ensures* lends { sem 𝓛 (LendsFewCell V.row self.entry i result) }
        ensures value { result.now ≡ slice_index_or (cells_in self.old) i result.now }
    {
        match i {
            0 => &mut self.first,
            1 => &mut self.second,
            2 => &mut self.third,
            _ => &mut self.fourth,
        }
    }

    /// Exchanges the cells that a set writes with those that are held in the order of the set. One
    /// after the other and by name, so that none of them needs to stand in memory.
    #[inline(always)]
    pub(crate) fn exchange(&mut self, home: &mut [Cell<V>], set: &[(u32, Access)])
        requires ascending { IsAscending set.now }
        requires one_each { self.old.len ≡ length set.now }
        requires in_range { (loc : ℕ) → IsTrue (writes set.now loc) → loc < length home.old }
        ensures home { home.new ≡ cells_given home.old (record { set = set.now; cells = cells_in self.old }) }
        ensures held { cells_in self.new ≡ with_written (cell_at home.old) set.now (cells_in self.old) }
    {
        exchange_at(home, set, 0, &mut self.first);
        exchange_at(home, set, 1, &mut self.second);
        exchange_at(home, set, 2, &mut self.third);
        exchange_at(home, set, 3, &mut self.fourth);
    }
}

impl<V: Drop> FewCells<V> {
    ghost use Rattle.std.specs.Prelude.{◌≡◌, ◌<◌};
    ghost use Rattle.cell_store.specs.Storage.{with_cell};

    /// Puts another cell at a place.
    #[inline(always)]
    pub(crate) fn put_at(&mut self, i: usize, cell: Cell<V>)
        requires { i < self.old.len }
        ensures { self.new ≡ with_cell self.old i cell }
    {
        match i {
            0 => self.first = cell,
            1 => self.second = cell,
            2 => self.third = cell,
            _ => self.fourth = cell,
        }
    }
}

impl<V: Copy> FewCells<V> {
    ghost use Rattle.std.specs.Prelude.{◌≡◌, ◌<◌, slice_index_or};
    ghost use Rattle.cell_store.specs.declared.cell.Cell.TheVariants.{Home, Out};
    ghost use Rattle.cell_store.specs.Home.{IsHome};
    ghost use Rattle.cell_store.specs.Storage.{cells_in};

    /// The value at a place.
    #[inline(always)]
    pub(crate) fn value_at(&self, i: usize) -> V
        requires in_range { i < self.now.len }
        requires home { IsHome (slice_index_or (cells_in self.now) i Out) }
        ensures { slice_index_or (cells_in self.now) i Out ≡ Home result }
    {
        match i {
            0 => *self.first.value(),
            1 => *self.second.value(),
            2 => *self.third.value(),
            _ => *self.fourth.value(),
        }
    }
}

impl<V: Held> FewCells<V> {
    ghost use Rattle.std.specs.Prelude.{◌≡◌, length, map, IfOk};
    ghost use Rattle.cell_store.specs.Cells.{AreHome, read_copy};
    ghost use Rattle.cell_store.specs.Storage.{cells_in};

    /// A copy of each cell of a set that it only reads, and an empty cell for each that it writes.
    #[inline(always)]
    pub(crate) fn read_copies(
        cells: &[Cell<V>],
        set: &[(u32, Access)],
    ) -> Result<FewCells<V>, NoRoom>
        requires home { AreHome cells.now set.now }
        requires few { length set.now ≤ 4 }
        ensures { IfOk result (λ copies. cells_in copies ≡ map (read_copy cells.now) set.now) }
    {
        Ok(FewCells {
            first: copy_at(cells, set, 0)?,
            second: copy_at(cells, set, 1)?,
            third: copy_at(cells, set, 2)?,
            fourth: copy_at(cells, set, 3)?,
            len: set.len(),
        })
    }
}
