ghost use Rattle.std.specs.Prelude.{◌≡◌, ℕ, suc, ◌+◌, ◌<◌, ◌/◌, ◌||◌, ◌==◌, true, [], OnOk};
ghost use Rattle.rw_sets.specs.Accesses.{writes};
ghost use Rattle.cell_store.specs.Values.{values_of};
ghost use Rattle.mtx_reader.specs.Patterns.{IsPattern};
ghost use Rattle.gf2_eliminate.specs.Covers.{covers, IsAtHome, IsClosed, IsCommon, IsSharedAmong};
ghost use Rattle.gf2_eliminate.specs.Elimination.{is_shared, set_of};
ghost use Rattle.gf2_eliminate.specs.Lines.{has, holds};

use crate::{Line2, OneSet};
use cell_store::Store;
use kdg_text::NoRoom;
use mtx_reader::Pattern;
use std::alloc::Global;

/// A set of rows and columns of a matrix. Each has the place that it has in lines, so whole words of
/// lines go in and are compared.
#[derive(Drop)]
pub struct LineCover {
    rows: OneSet,
    columns: OneSet,
}

impl LineCover {
    /// Neither a row nor a column, which takes no memory.
    pub(crate) fn new(alloc: Global) -> LineCover
        ensures { result ≡ record { rows = []; columns = [] } }
    {
        LineCover {
            rows: OneSet::new(alloc),
            columns: OneSet::new(alloc),
        }
    }

    /// Takes all rows and columns out.
    pub(crate) fn clear(&mut self)
        ensures { self.new ≡ record { rows = []; columns = [] } }
    {
        self.rows.clear();
        self.columns.clear();
    }

    /// Whether the row or the column of a location is in.
    pub(crate) fn has(&self, pattern: &Pattern, loc: u32) -> bool
        requires sound { IsPattern pattern.now }
        requires there { loc < pattern.now.rows + pattern.now.cols }
        ensures { result ≡ covers pattern.now self.now loc }
    {
        if loc < pattern.rows {
            self.rows.has(loc + 1)
        } else {
            self.columns.has(loc - pattern.rows + 1)
        }
    }

    /// Puts the row or the column of a location in.
    pub(crate) fn put(&mut self, pattern: &Pattern, loc: u32) -> Result<(), NoRoom>
        requires sound { IsPattern pattern.now }
        requires there { loc < pattern.now.rows + pattern.now.cols }
        ensures { OnOk result ((other : ℕ) → covers pattern.now self.new other ≡ (covers pattern.now self.old other || loc == other)) }
    {
        if loc < pattern.rows {
            self.rows.insert(loc + 1)
        } else {
            self.columns.insert(loc - pattern.rows + 1)
        }
    }

    /// Puts the set of the task of a column in.
    pub(crate) fn include_set(
        &mut self,
        pattern: &Pattern,
        column: u32,
        store: &Store<Line2>,
    ) -> Result<(), NoRoom>
        requires { IsAtHome pattern.now column store.now }
        ensures { OnOk result ((loc : ℕ) → covers pattern.now self.new loc ≡
            (covers pattern.now self.old loc || writes (set_of pattern.now.rows pattern.now.cols column (values_of store.now)) loc)) }
    {
        let holders = store.value(pattern.rows + column).ones();
        self.rows.include_first(holders, words_to(pattern.rows))?;
        self.columns.insert(column + 1)?;
        include_columns(&mut self.columns, pattern, column, store)
    }

    /// Puts the set of the task of a column in, where each row that is in came with its columns. These needn't
    /// be gone over again.
    pub(crate) fn gather_set(
        &mut self,
        pattern: &Pattern,
        column: u32,
        store: &Store<Line2>,
    ) -> Result<(), NoRoom>
        requires home { IsAtHome pattern.now column store.now }
        requires closed { IsClosed pattern.now (values_of store.now) self.old }
        ensures { OnOk result ((loc : ℕ) → covers pattern.now self.new loc ≡
            (covers pattern.now self.old loc || writes (set_of pattern.now.rows pattern.now.cols column (values_of store.now)) loc)) }
    {
        self.columns.insert(column + 1)?;
        include_new_columns(&mut self.columns, &self.rows, pattern, column, store)?;
        let holders = store.value(pattern.rows + column).ones();
        self.rows.include_first(holders, words_to(pattern.rows))
    }

    /// A location of the set of the task of a column that is in.
    pub(crate) fn common(&self, pattern: &Pattern, column: u32, store: &Store<Line2>) -> Option<u32>
        requires { IsAtHome pattern.now column store.now }
        ensures { IsCommon (writes (set_of pattern.now.rows pattern.now.cols column (values_of store.now))) (covers pattern.now self.now) result }
    {
        if self.columns.has(column + 1) {
            return Some(pattern.rows + column);
        }
        if let Some(place) = common_column(&self.columns, pattern, column, store) {
            return Some(pattern.rows + (place - 1));
        }
        match store
            .value(pattern.rows + column)
            .ones()
            .first_common(&self.rows, 1)
        {
            Some(place) => Some(place - 1),
            None => None,
        }
    }

    /// Puts the rows and columns of another cover in.
    pub(crate) fn join(&mut self, pattern: &Pattern, other: &LineCover) -> Result<(), NoRoom>
        ensures { OnOk result ((loc : ℕ) → covers pattern.now self.new loc ≡ (covers pattern.now self.old loc || covers pattern.now other.now loc)) }
    {
        self.rows
            .include_first(&other.rows, words_to(pattern.rows))?;
        self.columns
            .include_first(&other.columns, words_to(pattern.cols))
    }

    /// A location that both covers have.
    pub(crate) fn shared(&self, pattern: &Pattern, other: &LineCover) -> Option<u32>
        requires { IsPattern pattern.now }
        ensures { IsCommon (covers pattern.now self.now) (covers pattern.now other.now) result }
    {
        match self.columns.first_common(&other.columns, 1) {
            Some(place) if place <= pattern.cols => return Some(pattern.rows + (place - 1)),
            _ => {}
        }
        match self.rows.first_common(&other.rows, 1) {
            Some(place) if place <= pattern.rows => Some(place - 1),
            _ => None,
        }
    }
}

/// How many words the places up to a last one take.
fn words_to(last: u32) -> usize
    ensures { result ≡ last / 64 + 1 }
{
    (last / u64::BITS) as usize + 1
}

/// Adds the columns in which a row of a column has a one.
fn include_columns(
    columns: &mut OneSet,
    pattern: &Pattern,
    column: u32,
    store: &Store<Line2>,
) -> Result<(), NoRoom>
    requires { IsAtHome pattern.now column store.now }
    ensures { OnOk result ((other : ℕ) → other < pattern.now.cols → has columns.new (suc other) ≡
        (has columns.old (suc other) || is_shared pattern.now.rows pattern.now.cols (values_of store.now) column other)) }
{
    let holders = store.value(pattern.rows + column).ones();
    let words = words_to(pattern.cols);
    let mut from = 1;
    while let Some(row) = holders.first_common(holders, from) {
        columns.include_first(store.value(row - 1).ones(), words)?;
        from = row + 1;
    }
    Ok(())
}

/// Adds the columns in which a row of a column has a one, where those of these rows are in already.
fn include_new_columns(
    columns: &mut OneSet,
    rows: &OneSet,
    pattern: &Pattern,
    column: u32,
    store: &Store<Line2>,
) -> Result<(), NoRoom>
    requires home { IsAtHome pattern.now column store.now }
    requires in_already { (row other : ℕ) → row < pattern.now.rows → other < pattern.now.cols → has rows.now (suc row) ≡ true → holds (values_of store.now) row other ≡ true → has columns.old (suc other) ≡ true }
    ensures { OnOk result ((other : ℕ) → other < pattern.now.cols → has columns.new (suc other) ≡
        (has columns.old (suc other) || is_shared pattern.now.rows pattern.now.cols (values_of store.now) column other)) }
{
    let holders = store.value(pattern.rows + column).ones();
    let words = words_to(pattern.cols);
    let mut from = 1;
    while let Some(row) = holders.first_beyond(rows, from) {
        columns.include_first(store.value(row - 1).ones(), words)?;
        from = row + 1;
    }
    Ok(())
}

/// A column in which a row of a column has a one and that is among these, as its place.
fn common_column(
    columns: &OneSet,
    pattern: &Pattern,
    column: u32,
    store: &Store<Line2>,
) -> Option<u32>
    requires { IsAtHome pattern.now column store.now }
    ensures { IsSharedAmong pattern.now (values_of store.now) column columns.now result }
{
    let holders = store.value(pattern.rows + column).ones();
    let mut from = 1;
    while let Some(row) = holders.first_common(holders, from) {
        let found = store.value(row - 1).ones().first_common(columns, 1);
        if found.is_some() {
            return found;
        }
        from = row + 1;
    }
    None
}
