ghost use Rattle.std.specs.Prelude.{◌≡◌, ◌<◌, length, slice_index_or};
ghost use Rattle.std.specs.Borrow.{sem};
ghost use Rattle.cell_store.specs.declared.cell.Cell.TheVariants.{Home, Out};
ghost use Rattle.cell_store.specs.Home.{IsHome};
ghost use Rattle.cell_store.specs.Storage.{cells_of, with_cell_at};
ghost use Rattle.cell_store.specs.StorageLends.{LendsCell};

use crate::cell::Cell;
use crate::few_cells::FewCells;

/// Cells in the order of a set: in place while they are few, so that a small bundle takes no memory.
#[derive(Drop)]
pub(crate) enum CellList<V> {
    InPlace(FewCells<V>),
    InMemory(Vec<Cell<V>>),
}

impl<V> CellList<V> {
    pub(crate) fn len(&self) -> usize
        ensures { result ≡ length (cells_of self.now) }
    {
        match self {
            CellList::InPlace(few) => few.len(),
            CellList::InMemory(cells) => cells.len(),
        }
    }

    #[inline(always)]
    pub(crate) fn at(&self, i: usize) -> &Cell<V>
        requires { i < length (cells_of self.now) }
        ensures { result.now ≡ slice_index_or (cells_of self.now) i result.now }
    {
        match self {
            CellList::InPlace(few) => few.at(i),
            CellList::InMemory(cells) => &cells[i],
        }
    }

    #[inline(always)]
    pub(crate) fn at_mut(&mut self, i: usize) -> &mut Cell<V>
        requires { i < length (cells_of self.old) }
        ensures* lends { sem 𝓛 (LendsCell V.row self.entry i result) }
        ensures value { result.now ≡ slice_index_or (cells_of self.old) i result.now }
    {
        match self {
            CellList::InPlace(few) => few.at_mut(i),
            CellList::InMemory(cells) => &mut cells[i],
        }
    }
}

impl<V: Drop> CellList<V> {
    /// Puts another cell at a place.
    #[inline(always)]
    pub(crate) fn put_at(&mut self, i: usize, cell: Cell<V>)
        requires { i < length (cells_of self.old) }
        ensures { self.new ≡ with_cell_at self.old i cell }
    {
        match self {
            CellList::InPlace(few) => few.put_at(i, cell),
            CellList::InMemory(cells) => cells[i] = cell,
        }
    }
}

impl<V: Copy> CellList<V> {
    /// The value at a place.
    #[inline(always)]
    pub(crate) fn value_at(&self, i: usize) -> V
        requires in_range { i < length (cells_of self.now) }
        requires home { IsHome (slice_index_or (cells_of self.now) i Out) }
        ensures { slice_index_or (cells_of self.now) i Out ≡ Home result }
    {
        match self {
            CellList::InPlace(few) => few.value_at(i),
            CellList::InMemory(cells) => *cells[i].value(),
        }
    }
}
