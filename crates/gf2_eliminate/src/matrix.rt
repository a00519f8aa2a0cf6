ghost use Rattle.std.specs.Prelude.{◌≡◌, ◌<◌, ◌^◌, length, IfOk, IfErr};
ghost use Rattle.cell_store.specs.Values.{homes, values_of};
ghost use Rattle.app_laws.specs.Applications.{AreFitStarts};
ghost use Rattle.mtx_reader.specs.Patterns.{IsPattern};
ghost use Rattle.gf2_eliminate.specs.Elimination.{elimination};
ghost use Rattle.gf2_eliminate.specs.Lines.{AreLines};
ghost use Rattle.gf2_eliminate.specs.Start.{finals_of, start_cells, start_tasks};

use crate::Line2;
use crate::finals::finals;
use crate::start::{first_cells, first_tasks};
use crate::step::eliminate;
use crate::touched::{first_out, touched};
use app_laws::{App, ChildList, Effect, SetAnswer};
use cell_store::{Bundle, Seen, Store, home_laws, location_laws, return_laws, value_laws};
use kdg_text::{NoRoom, Steps, Text};
use mtx_reader::Pattern;
use rw_sets::RwSet;
use std::alloc::Global;
use std::marker::Model;
use std::sync::ledger::Ledger;
use task_order::{Body, PendingTasks, StartList, Task};

/// A matrix of zeros and ones that is brought to reduced form over the field of two elements. Row
/// `i`, counted from 1, has its line in cell `i - 1`, and the columns have theirs behind the rows.
///
/// The task of column `k` takes the least row that has a one in it and isn't used, the pivot, and
/// adds it to every other row that has a one there. The pivot is used from then on. A line
/// `col K row I` says so, or `col K free` where there is no such row.
#[derive(Drop)]
pub struct Matrix {
    alloc: Global,
    pub(crate) pattern: Pattern,
}

impl Model for Matrix {
    ghost use Rattle.mtx_reader.specs.declared.pattern.Pattern.{Pattern};
    ghost use Rattle.mtx_reader.specs.Patterns.{IsPattern};

    ghost Value = { Pattern };

    ghost view = { λ m. m.pattern };

    ghost invariant = { λ m. IsPattern m.pattern };
}

impl Matrix {
    /// The matrix with ones at the places of a pattern. It takes no memory.
    pub fn new(alloc: Global, pattern: Pattern) -> Matrix
        requires { IsPattern pattern }
        ensures { result ≡ pattern }
    {
        Matrix { alloc, pattern }
    }

    /// The cells at the start: the lines of the matrix, and no row is used.
    pub fn first_cells(&self) -> Result<Vec<Line2>, NoRoom>
        ensures cells { IfOk result (λ cells. cells.items ≡ start_cells self.now) }
        ensures fit { IfOk result (λ cells. AreLines self.now.rows self.now.cols cells.items) }
    {
        first_cells(self.alloc, &self.pattern)
    }

    /// The first tasks: one for each column, at the priority of its number, which counts from 1.
    pub fn first_tasks(&self) -> Result<StartList, NoRoom>
        ensures tasks { IfOk result (λ tasks. tasks ≡ start_tasks self.now) }
        ensures fit { IfOk result (AreFitStarts (elimination self.now.rows self.now.cols)) }
        ensures few { IfOk result (λ tasks. length tasks < 2 ^ 32) }
    {
        first_tasks(self.alloc, self.pattern.cols)
    }

    /// A line `row I` for each row, with the columns of its ones, and a line `rank R`, where `R` is
    /// the number of rows that are used.
    pub fn print_finals(&self, store: &Store<Line2>) -> Result<Text, NoRoom>
        requires home { store.now ≡ homes (values_of store.now) }
        requires fit { AreLines self.now.rows self.now.cols (values_of store.now) }
        ensures { IfOk result (λ text. text ≡ finals_of self.now.rows (values_of store.now)) }
    {
        finals(self.alloc, self.pattern.rows, store)
    }
}

impl App for Matrix {
    ghost use Rattle.app_laws.specs.Applications.{IsFitTask, IsTaken, IsEffect};
    ghost use Rattle.gf2_eliminate.specs.Lawful as lawful;

    type Val = Line2;

    type Horizon = ();

    ghost meaning = { λ pattern. elimination pattern.rows pattern.cols };

    ghost tells = { λ app horizon tasks. Unit {0} };

    fn cells(&self) -> u32 {
        self.pattern.rows + self.pattern.cols
    }

    fn sets<L: Ledger>(
        &self,
        body: &Body,
        store: &Store<Line2>,
        steps: &mut Steps<L>,
    ) -> Result<SetAnswer, NoRoom> {
        steps.tick();
        let size = (self.pattern.rows, self.pattern.cols);
        let at = size.0 + body.at;
        let line = match store.peek(at) {
            Seen::At(line) => line,
            Seen::Out => return Ok(SetAnswer::Out(at)),
        };
        let rows = line.ones().places()?;
        match first_out(store, &rows) {
            Some(loc) => Ok(SetAnswer::Out(loc)),
            None => {
                let pairs = touched(self.alloc, size, body.at, &rows, store)?;
                Ok(SetAnswer::Known(RwSet::from_pairs(pairs)))
            }
        }
    }

    fn sets_are_fixed(&self) -> bool {
        false
    }

    fn ignores_paths(&self) -> bool {
        true
    }

    fn horizon(&self, _alloc: Global) -> Result<(), NoRoom> {
        Ok(())
    }

    fn touch(&self, _horizon: &mut (), _body: &Body) {}

    fn safe<P: PendingTasks>(&self, _task: &Task, _pending: &P, _horizon: &mut ()) -> bool {
        true
    }

    fn run(&self, task: &Task, bundle: Bundle<Line2>) -> Result<Effect<Line2>, Bundle<Line2>>
        requires fit { IsFitTask (elimination self.now.rows self.now.cols) task.now }
        requires cells { IsTaken (elimination self.now.rows self.now.cols) task.now bundle }
        ensures effect { IfOk result (IsEffect (elimination self.now.rows self.now.cols) task.now bundle) }
        ensures returned { IfErr result (λ back. back ≡ bundle) }
    {
        location_laws::<Line2>();
        value_laws::<Line2>();
        let mut bundle = bundle;
        match eliminate(self.alloc, self.pattern.rows, task.body.at, &mut bundle) {
            Err(_) => Err(bundle),
            Ok(text) => Ok(Effect {
                bundle,
                children: ChildList::new(self.alloc),
                text,
            }),
        }
    }

    fn works_at_home(&self) -> bool {
        true
    }

    fn run_at_home(
        &self,
        task: &Task,
        store: &mut Store<Line2>,
    ) -> Result<(ChildList, Text), NoRoom> {
        location_laws::<Line2>();
        value_laws::<Line2>();
        return_laws::<Line2>();
        home_laws::<Line2>();
        let text = eliminate(self.alloc, self.pattern.rows, task.body.at, store)?;
        Ok((ChildList::new(self.alloc), text))
    }

    ghost lawful = { λ pattern. lawful.are_lawful pattern.rows pattern.cols };
}
