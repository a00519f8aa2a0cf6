ghost use Rattle.std.specs.Prelude.{◌≡◌, ℕ, ◌<◌, length, OnOk};
ghost use Rattle.std.specs.List.{AllByRecursion};
ghost use Rattle.gf2_eliminate.specs.Lines.{is_used, numbers_in, IsListTo};
ghost use Rattle.gf2_eliminate.specs.Plans.{as_used, with_sum};
ghost use Rattle.gf2_eliminate.specs.Start.{with_number};

use crate::OneSet;
use crate::ones::Addend;
use cell_store::Held;
use kdg_text::NoRoom;

/// A row or a column of a matrix of zeros and ones, as the set of the places of its ones, which are
/// counted from 1.
#[derive(Drop)]
pub enum Line2 {
    /// A row.
    Row {
        /// The columns in which it has a one.
        cols: OneSet,
        /// Whether it was the pivot of a column.
        used: bool,
    },
    /// A column.
    Col {
        /// The rows in which it has a one.
        rows: OneSet,
    },
}

impl Held for Line2 {
    fn copy(&self) -> Result<Line2, NoRoom> {
        match self {
            Line2::Row { cols, used } => Ok(Line2::Row {
                cols: cols.copy()?,
                used: *used,
            }),
            Line2::Col { rows } => Ok(Line2::Col { rows: rows.copy()? }),
        }
    }
}

impl Line2 {
    /// The places of its ones.
    pub(crate) fn ones(&self) -> &OneSet
        ensures { result.now ≡ numbers_in self.now }
    {
        match self {
            Line2::Row { cols, .. } => cols,
            Line2::Col { rows } => rows,
        }
    }

    /// Whether it is a row that was the pivot of a column.
    pub(crate) fn is_used(&self) -> bool
        ensures { result ≡ is_used self.now }
    {
        match self {
            Line2::Row { used, .. } => *used,
            Line2::Col { .. } => false,
        }
    }

    /// Puts a one behind all others.
    #[inline(always)]
    pub(crate) fn push(&mut self, number: u32) -> Result<(), NoRoom>
        requires { AllByRecursion (λ other. other < number) (numbers_in self.old) }
        ensures { OnOk result (self.new ≡ with_number self.old number) }
    {
        match self {
            Line2::Row { cols, .. } => cols.push(number),
            Line2::Col { rows } => rows.push(number),
        }
    }

    /// Adds ones over two elements. The line has a one before.
    #[inline(always)]
    pub(crate) fn add(&mut self, added: &Addend)
        requires { 0 < length (numbers_in self.old) }
        ensures { (bound : ℕ) → IsListTo bound (numbers_in self.old) → IsListTo bound added.now → self.new ≡ with_sum bound added.now self.old }
    {
        match self {
            Line2::Row { cols, .. } => cols.add(added),
            Line2::Col { rows } => rows.add(added),
        }
    }

    /// From now on it was the pivot of a column, if it is a row.
    pub(crate) fn mark_used(&mut self)
        ensures { self.new ≡ as_used self.old }
    {
        match self {
            Line2::Row { used, .. } => *used = true,
            Line2::Col { .. } => {}
        }
    }
}
