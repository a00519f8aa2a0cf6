ghost use Rattle.std.specs.Prelude.{◌≡◌, Some, slice_set};
ghost use Rattle.std.specs.Borrow.{Lends, sem};
ghost use Rattle.rw_sets.specs.Accesses.{access_at};
ghost use Rattle.rw_sets.specs.declared.access.Access.TheVariants.{Write};
ghost use Rattle.cell_store.specs.declared.cell.Cell.TheVariants.{Home};
ghost use Rattle.cell_store.specs.Home.{IsHome};
ghost use Rattle.cell_store.specs.Cells.{cell_at, with_value};
ghost use Rattle.gf2_eliminate.specs.contracts.line.Line2.{the_row};
ghost use Rattle.gf2_eliminate.specs.Plans.{line_in, line_at_home};

use crate::Line2;
use cell_store::{Bundle, Store};

/// What a task finds its lines in: the bundle of its set, or the store where they are home.
pub(crate) trait Lines {
    ghost use Rattle.std.specs.Prelude.{ℕ};
    ghost use Rattle.gf2_eliminate.specs.declared.line.Line2.{Line2};

    /// The line at a location.
    ghost held: { Self → ℕ → Line2 };

    /// Whether the line at a location is there.
    ghost has_line: { Self → ℕ → Type 0 };

    /// The lines with another at a location.
    ghost put_at: { Self → ℕ → Line2 → Self };

    /// The line at a location.
    fn line(&self, loc: u32) -> &Line2
        requires { has_line self.now loc }
        ensures { result.now ≡ held self.now loc };

    /// The line at a location, to be changed.
    fn line_mut(&mut self, loc: u32) -> &mut Line2
        requires { has_line self.old loc }
        ensures* lends { sem 𝓛 (Lends Self.row the_row self.entry result (put_at self.entry.now loc)) }
        ensures value { result.now ≡ held self.old loc };
}

impl Lines for Bundle<Line2> {
    ghost held = { line_in };

    ghost has_line = { λ bundle loc. access_at bundle.set loc ≡ Some Write };

    ghost put_at = { with_value };

    #[inline(always)]
    fn line(&self, loc: u32) -> &Line2 {
        self.get(loc)
    }

    #[inline(always)]
    fn line_mut(&mut self, loc: u32) -> &mut Line2 {
        self.get_mut(loc)
    }
}

impl Lines for Store<Line2> {
    ghost held = { line_at_home };

    ghost has_line = { λ cells loc. IsHome (cell_at cells loc) };

    ghost put_at = { λ cells loc line. slice_set cells loc (Home line) };

    #[inline(always)]
    fn line(&self, loc: u32) -> &Line2 {
        self.value(loc)
    }

    #[inline(always)]
    fn line_mut(&mut self, loc: u32) -> &mut Line2 {
        self.value_mut(loc)
    }
}
