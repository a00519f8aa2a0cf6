ghost use Rattle.std.specs.Prelude.{◌≡◌, ℕ, ◌<◌, ◌^◌, length, map, slice_set, vec_len, IsTrue, IfOk, OnOk, OnErr};
ghost use Rattle.std.specs.Borrow.{sem};
ghost use Rattle.rw_sets.specs.Accesses.{IsAscending, writes};
ghost use Rattle.cell_store.specs.declared.cell.Cell.TheVariants.{Home};
ghost use Rattle.cell_store.specs.Home.{IsHome, cell_seen};
ghost use Rattle.cell_store.specs.Lends.{LendsHome};
ghost use Rattle.cell_store.specs.Storage.{cells_of};
ghost use Rattle.cell_store.specs.Cells.{cell_at, AreHome, AreWrittenHome, AreWrittenOut, IsBundle, part_of, cells_taken, cells_given, shell_of, bundle_of, read_copy, with_written};

use crate::bundle::{Bundle, Shell};
use crate::cell::{Cell, Seen};
use crate::cell_list::CellList;
use crate::exchange::exchange;
use crate::few_cells::{FEW, FewCells};
use crate::held::Held;
use crate::place::copy_at;
use kdg_text::NoRoom;
use rw_sets::{Access, RwSet};
use std::alloc::Global;
use std::marker::Model;

/// Cells by location, each home or out.
#[derive(Drop)]
pub struct Store<V: Held> {
    cells: Vec<Cell<V>>,
}

impl<V: Held> Model for Store<V> {
    ghost use Rattle.std.specs.Prelude.{List, ◌<◌, ◌^◌, length};
    ghost use Rattle.cell_store.specs.declared.cell.Cell.{Cell};

    ghost Value = { List (Cell V) };

    ghost view = { λ s. s.cells.items };

    ghost invariant = { λ s. length s.cells.items < 2 ^ 32 };
}

impl<V: Held> Store<V> {
    /// A store with these values home. After `NoRoom` they are dropped.
    pub fn new(alloc: Global, cells: Vec<V>) -> Result<Store<V>, NoRoom>
        requires { vec_len cells < 2 ^ 32 }
        ensures { IfOk result (λ store. store ≡ map Home cells.items) }
    {
        Ok(Store {
            cells: cells.into_iter().map(Cell::Home).collect(alloc)?,
        })
    }

    /// How many cells there are.
    pub fn len(&self) -> u32
        ensures { result ≡ length self.now }
    {
        self.cells.len() as u32
    }

    /// What is in the cell at a location.
    pub fn peek(&self, loc: u32) -> Seen<'_, V>
        requires { loc < length self.now }
        ensures { cell_seen result ≡ cell_at self.now loc }
    {
        match &self.cells[loc as usize] {
            Cell::Home(value) => Seen::At(value),
            Cell::Out => Seen::Out,
        }
    }

    /// The value of a cell that is home.
    #[inline(always)]
    pub fn value(&self, loc: u32) -> &V
        requires { IsHome (cell_at self.now loc) }
        ensures { cell_at self.now loc ≡ Home result.now }
    {
        self.cells[loc as usize].value()
    }

    /// The value of a cell that is home, to be changed where it is.
    #[inline(always)]
    pub fn value_mut(&mut self, loc: u32) -> &mut V
        requires { IsHome (cell_at self.old loc) }
        ensures* lends { sem 𝓛 (LendsHome V.row self.entry loc result) }
        ensures value { cell_at self.old loc ≡ Home result.now }
    {
        self.cells[loc as usize].value_mut()
    }

    /// Puts another value into a cell, where it is. What the cell had is dropped.
    #[inline(always)]
    pub fn put(&mut self, loc: u32, value: V)
        requires { loc < length self.old }
        ensures { self.new ≡ slice_set self.old loc (Home value) }
    {
        self.cells[loc as usize] = Cell::Home(value);
    }

    /// Takes the cells of a set: moves out those that it writes, and copies those that it reads.
    /// After `NoRoom` the store is as it was.
    #[inline(always)]
    pub fn take(&mut self, set: &RwSet) -> Result<Bundle<V>, NoRoom>
        requires { AreHome self.old set.now }
        ensures bundle { IfOk result (λ bundle. bundle ≡ part_of self.old set.now) }
        ensures whole { IfOk result IsBundle }
        ensures ok { OnOk result (self.new ≡ cells_taken self.old set.now) }
        ensures out { OnOk result (AreWrittenOut self.new set.now) }
        ensures err { OnErr result (self.new ≡ self.old) }
    {
        self.take_owned(set.copy()?)
    }

    /// As `take`, of a set that goes into the bundle. After `NoRoom` the set is dropped, and the store
    /// is as it was.
    #[inline(always)]
    pub fn take_owned(&mut self, set: RwSet) -> Result<Bundle<V>, NoRoom>
        requires { AreHome self.old set }
        ensures bundle { IfOk result (λ bundle. bundle ≡ part_of self.old set) }
        ensures whole { IfOk result IsBundle }
        ensures ok { OnOk result (self.new ≡ cells_taken self.old set) }
        ensures out { OnOk result (AreWrittenOut self.new set) }
        ensures err { OnErr result (self.new ≡ self.old) }
    {
        let mut cells = read_copies(&self.cells, set.items())?;
        self.exchange(set.items(), &mut cells);
        Ok(Bundle { set, cells })
    }

    /// Puts the values that a bundle writes home, and leaves the rest of the bundle.
    #[inline(always)]
    pub fn give(&mut self, bundle: Bundle<V>) -> Shell<V>
        requires { AreWrittenOut self.old bundle.set }
        ensures given { self.new ≡ cells_given self.old bundle }
        ensures home { AreWrittenHome self.new bundle.set }
        ensures whole { IsBundle bundle }
        ensures shell { result ≡ shell_of bundle }
    {
        let Bundle { set, mut cells } = bundle;
        self.exchange(set.items(), &mut cells);
        Shell { set, cells }
    }

    /// Moves the cells that a shell writes out again, as they are home now.
    pub fn regain(&mut self, shell: Shell<V>) -> Bundle<V>
        requires { AreWrittenHome self.old shell.set }
        ensures taken { self.new ≡ cells_taken self.old shell.set }
        ensures out { AreWrittenOut self.new shell.set }
        ensures bundle { result ≡ bundle_of self.old shell }
        ensures whole { IsBundle result }
    {
        let Shell { set, mut cells } = shell;
        self.exchange(set.items(), &mut cells);
        Bundle { set, cells }
    }

    /// Drops the values of the cells that a set writes, and leaves these cells out.
    #[inline(never)]
    pub fn drop_written(&mut self, set: &RwSet)
        requires { AreWrittenHome self.old set.now }
        ensures taken { self.new ≡ cells_taken self.old set.now }
        ensures out { AreWrittenOut self.new set.now }
    {
        for (loc, access) in set.items() {
            if access.is_write() {
                self.cells[*loc as usize] = Cell::Out;
            }
        }
    }

    /// Exchanges the cells that a set writes with those that are held in the order of the set.
    #[inline(always)]
    fn exchange(&mut self, set: &[(u32, Access)], held: &mut CellList<V>)
        requires ascending { IsAscending set.now }
        requires one_each { length (cells_of held.old) ≡ length set.now }
        requires in_range { (loc : ℕ) → IsTrue (writes set.now loc) → loc < length self.old }
        ensures home { self.new ≡ cells_given self.old (record { set = set.now; cells = cells_of held.old }) }
        ensures held { cells_of held.new ≡ with_written (cell_at self.old) set.now (cells_of held.old) }
    {
        exchange(&mut self.cells, set, held);
    }
}

/// A copy of each cell of a set that it only reads, and an empty cell for each that it writes.
#[inline(always)]
fn read_copies<V: Held>(cells: &Vec<Cell<V>>, set: &[(u32, Access)]) -> Result<CellList<V>, NoRoom>
    requires { AreHome cells.now.items set.now }
    ensures { IfOk result (λ copies. cells_of copies ≡ map (read_copy cells.now.items) set.now) }
{
    if set.len() <= FEW {
        return Ok(CellList::InPlace(FewCells::read_copies(cells, set)?));
    }
    Ok(CellList::InMemory(many_copies(cells, set)?))
}

/// Copies of the cells of a set, in memory.
#[inline(never)]
fn many_copies<V: Held>(cells: &Vec<Cell<V>>, set: &[(u32, Access)]) -> Result<Vec<Cell<V>>, NoRoom>
    requires { AreHome cells.now.items set.now }
    ensures { IfOk result (λ copies. copies.items ≡ map (read_copy cells.now.items) set.now) }
{
    let mut copies = Vec::with_capacity(*cells.allocator(), set.len())?;
    for i in 0..set.len() {
        copies.push(copy_at(cells, set, i)?)?;
    }
    Ok(copies)
}
