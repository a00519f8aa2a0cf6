//! What the runs of an application begin with.

use app_laws::App;
use gf2_eliminate::{Line2, Matrix};
use kdg_text::NoRoom;
use logic_sim::Circuit;
use task_order::StartList;

/// An application with its start.
pub trait Startable: App {
    ghost use Rattle.std.specs.Prelude.{◌<◌, ◌^◌, length, IfOk};
    ghost use Rattle.app_laws.specs.Applications.{AreFitStarts};

    /// The cells at the start.
    fn start_cells(&self) -> Result<Vec<Self::Val>, NoRoom>
        ensures { IfOk result (λ cells. (Self.meaning self.now).is_fit_cells cells.items) };

    /// The tasks at the start.
    fn start_tasks(&self) -> Result<StartList, NoRoom>
        ensures fit { IfOk result (AreFitStarts (Self.meaning self.now)) }
        ensures few { IfOk result (λ tasks. length tasks < 2 ^ 32) };
}

impl Startable for Circuit {
    fn start_cells(&self) -> Result<Vec<u8>, NoRoom> {
        self.first_cells()
    }

    fn start_tasks(&self) -> Result<StartList, NoRoom> {
        self.first_tasks()
    }
}

impl Startable for Matrix {
    fn start_cells(&self) -> Result<Vec<Line2>, NoRoom> {
        self.first_cells()
    }

    fn start_tasks(&self) -> Result<StartList, NoRoom> {
        self.first_tasks()
    }
}
