//! The covers of columns beside the sets that are told by the places of a matrix alone.

ghost use Rattle.std.specs.Prelude.{◌≡◌, ◌<◌};
ghost use Rattle.cell_store.specs.Values.{homes, values_of};
ghost use Rattle.gf2_eliminate.specs.Lines.{AreLines};

use app_laws::App;
use cell_store::{Store, value_laws};
use gf2_eliminate::{Line2, LineCover, Matrix};
use kdg_text::{NoRoom, Text, push_u64};
use mtx_reader::read_mtx;
use resting_tasks::Resting;
use std::alloc::Global;
use std::process::Abort;
use std::test::Fail;
use task_order::Body;

/// Words that look random.
#[derive(Drop)]
struct Words {
    state: u64,
}

impl Words {
    /// The next number below a bound.
    fn below(&mut self, bound: u32) -> u32
        requires { 0 < bound }
        ensures { result < bound }
    {
        self.state = self
            .state
            .wrapping_mul(6_364_136_223_846_793_005)
            .wrapping_add(1_442_695_040_888_963_407);
        (self.state >> 33) as u32 % bound
    }
}

/// The places of the ones of a matrix, counted from 0.
#[derive(Drop)]
struct Ones {
    rows: u32,
    columns: u32,
    places: Vec<(u32, u32)>,
}

impl Ones {
    /// A matrix in which about one place of `of_places` has a one.
    fn random(
        alloc: Global,
        words: &mut Words,
        rows: u32,
        columns: u32,
        of_places: u32,
    ) -> Result<Ones, NoRoom>
        requires { 0 < of_places }
    {
        let mut places = Vec::new(alloc);
        for row in 0..rows {
            for column in 0..columns {
                if words.below(of_places) == 0 {
                    places.push((row, column))?;
                }
            }
        }
        Ok(Ones {
            rows,
            columns,
            places,
        })
    }

    fn is_one(&self, row: u32, column: u32) -> bool {
        self.places.iter().any(|place| *place == (row, column))
    }

    /// Whether the task of a column needs a location.
    fn needs(&self, column: u32, loc: u32) -> bool {
        if loc < self.rows {
            return self.is_one(loc, column);
        }
        let other = loc - self.rows;
        other == column
            || (0..self.rows).any(|row| self.is_one(row, column) && self.is_one(row, other))
    }

    /// Whether the tasks of two columns need a common location.
    fn meet(&self, one: u32, other: u32, cells: u32) -> bool {
        (0..cells).any(|loc| self.needs(one, loc) && self.needs(other, loc))
    }

    /// The lines of a file that describes the matrix.
    fn text(&self, alloc: Global) -> Result<Text, NoRoom> {
        let mut text = Text::new(alloc);
        text.push_all(b"%%MatrixMarket matrix coordinate pattern general\n")?;
        push_u64(&mut text, u64::from(self.rows))?;
        text.push_byte(b' ')?;
        push_u64(&mut text, u64::from(self.columns))?;
        text.push_byte(b' ')?;
        push_u64(&mut text, self.places.len() as u64)?;
        text.push_byte(b'\n')?;
        for (row, column) in self.places.iter() {
            push_u64(&mut text, u64::from(*row) + 1)?;
            text.push_byte(b' ')?;
            push_u64(&mut text, u64::from(*column) + 1)?;
            text.push_byte(b'\n')?;
        }
        Ok(text)
    }
}

/// The body of the task of a column.
fn body_of(column: u32) -> Body
    ensures { result ≡ record { kind = 0; at = column; arg = 0 } }
{
    Body {
        kind: 0,
        at: column,
        arg: 0,
    }
}

/// The cover of a column's set.
fn cover_of(
    alloc: Global,
    matrix: &Matrix,
    store: &Store<Line2>,
    column: u32,
) -> Result<LineCover, NoRoom>
    requires column { column < matrix.now.cols }
    requires home { store.now ≡ homes (values_of store.now) }
    requires fit { AreLines matrix.now.rows matrix.now.cols (values_of store.now) }
{
    let mut cover = matrix.no_cover(alloc);
    matrix.put(&mut cover, 0)?;
    matrix.clear(&mut cover);
    matrix.cover(&body_of(column), store, &mut cover)?;
    Ok(cover)
}

/// Whether a cover has the locations that one of two columns needs, and no others.
fn has_needs(ones: &Ones, matrix: &Matrix, cover: &LineCover, column: u32, other: u32) -> bool {
    for loc in 0..matrix.cells() {
        let is_needed = ones.needs(column, loc) || ones.needs(other, loc);
        if matrix.has(cover, loc) != is_needed {
            return false;
        }
    }
    true
}

/// Whether each of these is a location that two columns need, where there is one.
fn are_met(ones: &Ones, found: &[Option<u32>], column: u32, other: u32, cells: u32) -> bool {
    let meet = ones.meet(column, other, cells);
    for found in found {
        let is_wanted = match *found {
            Some(loc) => meet && ones.needs(column, loc) && ones.needs(other, loc),
            None => !meet,
        };
        if !is_wanted {
            return false;
        }
    }
    true
}

/// Whether the covers of two columns, apart and joined, have what they need, and meet where they do.
fn have_sets(
    alloc: Global,
    ones: &Ones,
    matrix: &Matrix,
    store: &Store<Line2>,
    column: u32,
    other: u32,
) -> Result<bool, Fail>
    requires column { column < matrix.now.cols }
    requires other { other < matrix.now.cols }
    requires home { store.now ≡ homes (values_of store.now) }
    requires fit { AreLines matrix.now.rows matrix.now.cols (values_of store.now) }
{
    let one = cover_of(alloc, matrix, store, column)?;
    let two = cover_of(alloc, matrix, store, other)?;
    let mut both = cover_of(alloc, matrix, store, column)?;
    matrix.join(&mut both, &two)?;
    let found = [
        matrix.shared(&one, &two),
        matrix.common(&body_of(column), store, &two),
        matrix.common(&body_of(other), store, &one),
    ];
    Ok(
        has_needs(ones, matrix, &one, column, column)
            && has_needs(ones, matrix, &two, other, other)
            && has_needs(ones, matrix, &both, column, other)
            && are_met(ones, &found, column, other, matrix.cells()),
    )
}

/// Whether the core of a column is a location that it needs, and is found in common with another column
/// where that one needs it too.
fn has_core(
    alloc: Global,
    ones: &Ones,
    matrix: &Matrix,
    store: &Store<Line2>,
    column: u32,
    other: u32,
) -> Result<bool, Fail>
    requires column { column < matrix.now.cols }
    requires other { other < matrix.now.cols }
    requires home { store.now ≡ homes (values_of store.now) }
    requires fit { AreLines matrix.now.rows matrix.now.cols (values_of store.now) }
{
    let core = matrix.core(&body_of(column));
    if core >= matrix.cells() || !ones.needs(column, core) {
        return Ok(false);
    }
    let mut cores = matrix.no_cover(alloc);
    matrix.put(&mut cores, core)?;
    let own = matrix.common(&body_of(column), store, &cores);
    let others = matrix.common(&body_of(other), store, &cores);
    Ok(own == Some(core) && others.is_some() == ones.needs(other, core))
}

/// Whether each of the columns of a matrix and one of the others beside it have their sets and cores.
fn are_alike(
    alloc: Global,
    ones: &Ones,
    matrix: &Matrix,
    store: &Store<Line2>,
    columns: u32,
    apart: u32,
) -> Result<bool, Fail>
    requires columns { columns ≡ matrix.now.cols }
    requires home { store.now ≡ homes (values_of store.now) }
    requires fit { AreLines matrix.now.rows matrix.now.cols (values_of store.now) }
{
    for column in 0..columns {
        let other = (column / 2 + apart % 100) % columns;
        let have_sets = have_sets(alloc, ones, matrix, store, column, other)?;
        if !have_sets || !has_core(alloc, ones, matrix, store, column, other)? {
            return Ok(false);
        }
    }
    Ok(true)
}

/// Reads a matrix, and compares all its columns.
fn compare_all(rt: &impl Abort, alloc: Global, ones: &Ones, apart: u32) -> Result<(), Fail> {
    value_laws::<Line2>();
    let Ok(pattern) = read_mtx(alloc, ones.text(alloc)?.bytes()) else {
        panic!(rt; "refused");
    };
    let columns = pattern.cols;
    let matrix = Matrix::new(alloc, pattern);
    let cells = matrix.first_cells()?;
    let store = Store::new(alloc, cells)?;
    assert!(rt;
        are_alike(alloc, ones, &matrix, &store, columns, apart)?,
        "{apart}"
    );
    Ok(())
}

#[test]
fn covers_have_the_sets(rt: HostRuntime) -> Result<(), Fail> {
    let alloc = rt.alloc();
    let mut words = Words { state: 7 };
    for round in 0..100u32 {
        let (rows, columns) = (words.below(6), words.below(6));
        let of_places = 1 + words.below(8);
        let ones = Ones::random(alloc, &mut words, rows, columns, of_places)?;
        compare_all(&rt, alloc, &ones, round)?;
    }
    // rows and columns in several words
    for (rows, columns, of_places) in [(3, 66, 40), (66, 3, 20)] {
        let ones = Ones::random(alloc, &mut words, rows, columns, of_places)?;
        compare_all(&rt, alloc, &ones, 5)?;
    }
    Ok(())
}
