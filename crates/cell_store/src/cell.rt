ghost use Rattle.std.specs.Prelude.{◌≡◌, IfOk};
ghost use Rattle.std.specs.Borrow.{Lends, sem};
ghost use Rattle.cell_store.specs.contracts.cell.Cell.{the_row};
ghost use Rattle.cell_store.specs.Home.{IsHome};

use crate::held::Held;
use kdg_text::NoRoom;

/// A cell: its value, or nothing while the value is out.
#[derive(Drop)]
pub enum Cell<V> {
    /// The value is here.
    Home(V),
    /// The value is in a bundle.
    Out,
}

impl<V> Cell<V> {
    pub(crate) fn value(&self) -> &V
        requires { IsHome self.now }
        ensures { self.now ≡ Cell.Home result.now }
    {
        match self {
            Cell::Home(value) => value,
            Cell::Out => unreachable!(),
        }
    }

    pub(crate) fn value_mut(&mut self) -> &mut V
        requires { IsHome self.old }
        ensures* lends { sem 𝓛 (Lends (the_row V.row) V.row self.entry result Cell.Home) }
        ensures value { self.old ≡ Cell.Home result.now }
    {
        match self {
            Cell::Home(value) => value,
            Cell::Out => unreachable!(),
        }
    }
}

impl<V: Held> Cell<V> {
    pub(crate) fn copy(&self) -> Result<Cell<V>, NoRoom>
        ensures { IfOk result (λ cell. cell ≡ self.now) }
    {
        match self {
            Cell::Home(value) => Ok(Cell::Home(value.copy()?)),
            Cell::Out => Ok(Cell::Out),
        }
    }
}

/// What `Store::peek` finds.
#[derive(Clone, Copy, Debug, PartialEq, Eq, Drop)]
pub enum Seen<'a, V> {
    /// The value of the cell.
    At(&'a V),
    /// The value is in a bundle.
    Out,
}
