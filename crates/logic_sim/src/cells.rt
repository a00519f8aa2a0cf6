ghost use Rattle.std.specs.Prelude.{◌≡◌, ◌<◌, length, slice_set, IsSome, IsTrue};
ghost use Rattle.rw_sets.specs.Accesses.{access_at, writes};
ghost use Rattle.cell_store.specs.declared.cell.Cell.TheVariants.{Home};
ghost use Rattle.cell_store.specs.Home.{IsHome};
ghost use Rattle.cell_store.specs.Cells.{cell_at, with_value};
ghost use Rattle.logic_sim.specs.Bundles.{held_at_home, held_in};

use cell_store::{Bundle, Store};

/// What an event finds its cells in: the bundle of its set, or the store where they are home.
pub(crate) trait Cells {
    ghost use Rattle.std.specs.Prelude.{ℕ};

    /// The value at a location.
    ghost held: { Self → ℕ → ℕ };

    /// Whether the value at a location can be read.
    ghost can_read: { Self → ℕ → Type 0 };

    /// Whether another value can be put at a location.
    ghost can_write: { Self → ℕ → Type 0 };

    /// The cells with another value at a location.
    ghost put_at: { Self → ℕ → ℕ → Self };

    /// The value at a location.
    fn value(&self, loc: u32) -> u8
        requires { can_read self.now loc }
        ensures { result ≡ held self.now loc };

    /// Puts another value at a location.
    fn put(&mut self, loc: u32, value: u8)
        requires { can_write self.old loc }
        ensures { self.new ≡ put_at self.old loc value };
}

impl Cells for Bundle<u8> {
    ghost held = { held_in };

    ghost can_read = { λ bundle loc. IsSome (access_at bundle.set loc) };

    ghost can_write = { λ bundle loc. IsTrue (writes bundle.set loc) };

    ghost put_at = { with_value };

    #[inline(always)]
    fn value(&self, loc: u32) -> u8 {
        self.value(loc)
    }

    #[inline(always)]
    fn put(&mut self, loc: u32, value: u8) {
        self.put(loc, value);
    }
}

impl Cells for Store<u8> {
    ghost held = { held_at_home };

    ghost can_read = { λ cells loc. IsHome (cell_at cells loc) };

    ghost can_write = { λ cells loc. loc < length cells };

    ghost put_at = { λ cells loc value. slice_set cells loc (Home value) };

    #[inline(always)]
    fn value(&self, loc: u32) -> u8 {
        *self.value(loc)
    }

    #[inline(always)]
    fn put(&mut self, loc: u32, value: u8) {
        self.put(loc, value);
    }
}
