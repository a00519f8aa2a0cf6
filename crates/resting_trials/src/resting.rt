//! Small matrices in rounds, by an engine with its graph and without one, where columns rest.

ghost use Rattle.std.specs.Prelude.{◌<◌, ◌^◌, length};
ghost use Rattle.app_laws.specs.Applications.{AreFitStarts};

use app_laws::{App, Finals};
use cell_store::{Seen, Store};
use gf2_eliminate::{Line2, Matrix, OneSet};
use graph_update::Engine;
use kdg_text::{NoRoom, Text, push_u64};
use mtx_reader::read_mtx;
use outer_edge::{Gate, Seeded, Still};
use resting_rounds::run_resting;
use source_pool::run_rounds;
use std::alloc::Global;
use std::test::Fail;
use std::thread::Threads;
use task_order::StartList;

/// How many matrices there are.
const MATRICES: u64 = 100;

/// A matrix has at most so many rows and columns.
const MOST_LINES: u64 = 16;

/// Numbers that a seed gives.
#[derive(Drop)]
struct Drawn {
    seed: u64,
    turn: u64,
}

impl Drawn {
    ghost use Rattle.std.specs.Prelude.{◌<◌};

    /// The next number below a bound.
    fn below(&mut self, bound: u64) -> u64
        requires { 0 < bound }
        ensures { result < bound }
    {
        self.turn = self.turn.wrapping_add(1);
        Seeded.choose(self.seed, 0, self.turn) % bound
    }
}

/// What a run comes to.
#[derive(Drop)]
struct Told {
    cells: Text,
    log: Text,
    tasks: u64,
    rounds: u64,
}

impl Told {
    /// Whether another run comes to the same.
    fn is_like(&self, other: &Told) -> bool {
        self.cells.bytes() == other.cells.bytes()
            && self.log.bytes() == other.log.bytes()
            && self.tasks == other.tasks
            && self.rounds == other.rounds
    }
}

/// The lines of a matrix with so many rows and columns, of whose places one of `of_places` has a one, and
/// how many ones there are.
fn ones_of(
    alloc: Global,
    drawn: &mut Drawn,
    rows: u64,
    columns: u64,
    of_places: u64,
) -> Result<(Text, u64), NoRoom>
    requires { 0 < of_places }
{
    let mut lines = Text::new(alloc);
    let mut count = 0u64;
    for row in 1..=rows {
        for column in 1..=columns {
            if drawn.below(of_places) == 0 {
                count = count.wrapping_add(1);
                push_pair(&mut lines, row, column, b'\n')?;
            }
        }
    }
    Ok((lines, count))
}

/// A matrix of a seed, from one of zeros and ones in equal parts to one of few ones.
fn input_of(alloc: Global, seed: u64) -> Result<Text, NoRoom> {
    let mut drawn = Drawn { seed, turn: 0 };
    let rows = 1 + drawn.below(MOST_LINES);
    let columns = 1 + drawn.below(MOST_LINES);
    let of_places = 2 + drawn.below(8);
    let (lines, count) = ones_of(alloc, &mut drawn, rows, columns, of_places)?;
    let mut text = Text::new(alloc);
    text.push_all(b"%%MatrixMarket matrix coordinate pattern general\n")?;
    push_pair(&mut text, rows, columns, b' ')?;
    push_u64(&mut text, count)?;
    text.push_byte(b'\n')?;
    text.push_all(lines.bytes())?;
    Ok(text)
}

/// Appends two numbers with a space between, and a byte.
fn push_pair(text: &mut Text, one: u64, other: u64, end: u8) -> Result<(), NoRoom> {
    push_u64(text, one)?;
    text.push_byte(b' ')?;
    push_u64(text, other)?;
    text.push_byte(end)
}

/// What cells have, line by line.
fn text_of(alloc: Global, store: &Store<Line2>) -> Result<Text, NoRoom> {
    let mut text = Text::new(alloc);
    for loc in 0..store.len() {
        match store.peek(loc) {
            Seen::At(Line2::Row { cols, used }) => push_line(&mut text, u64::from(*used), cols)?,
            Seen::At(Line2::Col { rows }) => push_line(&mut text, 2, rows)?,
            Seen::Out => text.push_byte(b'-')?,
        }
    }
    Ok(text)
}

/// Appends a number for the kind of a line, and its places.
fn push_line(text: &mut Text, kind: u64, ones: &OneSet) -> Result<(), NoRoom> {
    push_u64(text, kind)?;
    for place in &ones.places()? {
        text.push_byte(b' ')?;
        push_u64(text, u64::from(*place))?;
    }
    text.push_byte(b'\n')
}

/// What is told of a run that has ended.
fn told_of(alloc: Global, finals: Finals<Line2>, rounds: u64) -> Result<Told, NoRoom> {
    Ok(Told {
        cells: text_of(alloc, &finals.store)?,
        log: finals.text,
        tasks: finals.count,
        rounds,
    })
}

/// What rounds with a graph come to, and how many there are.
fn by_graph<R: Threads + Sync, A: App + Sync>(
    rt: &R,
    alloc: Global,
    app: &A,
    cells: Vec<A::Val>,
    first: StartList,
) -> Result<(Finals<A::Val>, u64), Fail>
    requires fit_cells { (A.meaning app.now).is_fit_cells cells.items }
    requires fit_first { AreFitStarts (A.meaning app.now) first }
    requires few { length first < 2 ^ 32 }
{
    let engine = Engine::begin_uncounted(alloc, app, cells, first, 1000)?;
    Ok(run_rounds(rt, alloc, engine, &Still, 1, 3)?)
}

/// What rounds with a graph come to.
fn told_by_graph<R: Threads + Sync>(rt: &R, alloc: Global, matrix: &Matrix) -> Result<Told, Fail> {
    let (cells, first) = (matrix.first_cells()?, matrix.first_tasks()?);
    let (finals, rounds) = by_graph(rt, alloc, matrix, cells, first)?;
    Ok(told_of(alloc, finals, rounds)?)
}

/// What rounds of resting columns come to.
fn told_by_rest(alloc: Global, matrix: &Matrix) -> Result<Told, Fail> {
    let (cells, first) = (matrix.first_cells()?, matrix.first_tasks()?);
    let (finals, rounds) = run_resting(alloc, matrix, cells, first, 1000, &Still, 3)?;
    Ok(told_of(alloc, finals, rounds)?)
}

/// Whether both ways come to the same cells, text and numbers of tasks and rounds.
fn are_alike<R: Threads + Sync>(rt: &R, alloc: Global, matrix: &Matrix) -> Result<bool, Fail> {
    let graph = told_by_graph(rt, alloc, matrix)?;
    Ok(told_by_rest(alloc, matrix)?.is_like(&graph))
}

#[test]
fn resting_columns_come_to_the_same(rt: HostRuntime) -> Result<(), Fail> {
    let alloc = rt.alloc();
    for seed in 0..MATRICES {
        let matrix = Matrix::new(alloc, read_mtx(alloc, input_of(alloc, seed)?.bytes())?);
        assert!(rt; are_alike(&rt, alloc, &matrix)?, "{seed}");
    }
    Ok(())
}
