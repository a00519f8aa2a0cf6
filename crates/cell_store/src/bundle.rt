ghost use Rattle.std.specs.Prelude.{◌≡◌, length, IsTrue, IsSome};
ghost use Rattle.std.specs.Borrow.{sem};
ghost use Rattle.rw_sets.specs.Accesses.{access_at, writes};
ghost use Rattle.cell_store.specs.declared.cell.Cell.TheVariants.{Home};
ghost use Rattle.cell_store.specs.Cells.{cell_in, with_value, IsBundle};
ghost use Rattle.cell_store.specs.Lends.{LendsValue};

use crate::cell::Cell;
use crate::cell_list::CellList;
use rw_sets::RwSet;
use std::marker::Model;

/// What a task holds of the cells: those that its set writes, and copies of those that it only reads.
#[derive(Drop)]
pub struct Bundle<V> {
    pub(crate) set: RwSet,
    pub(crate) cells: CellList<V>,
}

impl<V> Model for Bundle<V> {
    ghost use Rattle.cell_store.specs.Part.{Part};

    ghost Value = { Part V };

    ghost use Rattle.cell_store.specs.Cells.{IsBundle};
    ghost use Rattle.cell_store.specs.Storage.{cells_of};

    ghost view = { λ b. record { set = b.set; cells = cells_of b.cells } };

    ghost invariant = { λ b. IsBundle (record { set = b.set; cells = cells_of b.cells }) };
}

impl<V> Bundle<V> {
    /// How many cells it has, as many as locations in its set.
    pub fn len(&self) -> usize
        ensures { result ≡ length self.now.set }
    {
        self.cells.len()
    }

    /// The value at a location of the set.
    #[inline(always)]
    pub fn get(&self, loc: u32) -> &V
        requires { IsSome (access_at self.now.set loc) }
        ensures value { cell_in self.now loc ≡ Home result.now }
        ensures whole { IsBundle self.now }
    {
        match self.set.position_of(loc) {
            Some(at) => self.cells.at(at).value(),
            None => unreachable!(),
        }
    }

    /// The value at a location that the set writes, to be changed.
    #[inline(always)]
    pub fn get_mut(&mut self, loc: u32) -> &mut V
        requires { IsTrue (writes self.old.set loc) }
        ensures* writes_back { sem 𝓛 (LendsValue V.row self.entry loc result) }
        ensures value { cell_in self.old loc ≡ Home result.now }
    {
        match self.set.position_of(loc) {
            Some(at) => self.cells.at_mut(at).value_mut(),
            None => unreachable!(),
        }
    }
}

impl<V: Drop> Bundle<V> {
    /// Puts another value at a location that the set writes. A write that needs no borrow leaves the
    /// compiler free to keep the bundle in registers.
    #[inline(always)]
    pub fn put(&mut self, loc: u32, value: V)
        requires { IsTrue (writes self.old.set loc) }
        ensures { self.new ≡ with_value self.old loc value }
    {
        match self.set.position_of(loc) {
            Some(at) => self.cells.put_at(at, Cell::Home(value)),
            None => unreachable!(),
        }
    }
}

impl<V: Copy> Bundle<V> {
    /// A copy of the value at a location of the set.
    #[inline(always)]
    pub fn value(&self, loc: u32) -> V
        requires { IsSome (access_at self.now.set loc) }
        ensures { cell_in self.now loc ≡ Home result }
    {
        match self.set.position_of(loc) {
            Some(at) => self.cells.value_at(at),
            None => unreachable!(),
        }
    }
}

/// What is left of a bundle whose written values went home: its set, and the copies that it had.
#[derive(Drop)]
pub struct Shell<V> {
    pub(crate) set: RwSet,
    pub(crate) cells: CellList<V>,
}

impl<V> Model for Shell<V> {
    ghost use Rattle.cell_store.specs.Part.{Part};

    ghost Value = { Part V };

    ghost use Rattle.cell_store.specs.Cells.{IsShell};
    ghost use Rattle.cell_store.specs.Storage.{cells_of};

    ghost view = { λ s. record { set = s.set; cells = cells_of s.cells } };

    ghost invariant = { λ s. IsShell (record { set = s.set; cells = cells_of s.cells }) };
}
