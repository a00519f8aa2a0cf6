//! What the trials run, and what a run of it begins with.

use app_laws::App;
use bench_reader::read_deck;
use kdg_text::NoRoom;
use logic_sim::Circuit;
use spring_mesh::{Mesh, MeshNode, read_mesh};
use std::alloc::Global;
use std::test::Fail;
use task_order::StartList;
use worked_decks::C17_STIMULUS;

/// A ring of four nodes, each of them between two springs, which act at times of their own.
const RING: &str =
    "node 0 0 0 0 500\nnode 1000 0 0 25 500\nnode 1000 1000 0 0 500\nnode 0 1000 0 0 500\nspring 1 2 10 900 0 2\nspring 2 3 10 0 900 3\nspring 3 4 10 900 0 2\nspring 4 1 10 0 900 5\nend 40\n";

/// The circuit, in which nothing happens after the time 1000.
pub fn circuit(alloc: Global) -> Result<Circuit, Fail> {
    Ok(Circuit::new(alloc, read_deck(alloc, C17_STIMULUS.as_bytes())?, 1000, 10)?)
}

/// The mesh.
pub fn mesh(alloc: Global) -> Result<Mesh, Fail> {
    Ok(Mesh::new(alloc, read_mesh(alloc, RING.as_bytes())?))
}

/// An application with its start.
pub trait Startable: App {
    ghost use Rattle.std.specs.Prelude.{◌<◌, ◌^◌, length, IfOk};
    ghost use Rattle.app_laws.specs.Applications.{AreFitStarts};

    /// The cells at the start.
    fn start_cells(&self) -> Result<Vec<Self::Val>, NoRoom>
        ensures { IfOk result (λ cells. (Self.meaning self.now).is_fit_cells cells.items) };

    /// The tasks at the start.
    fn start_tasks(&self) -> Result<StartList, NoRoom>
        ensures fit { IfOk result (AreFitStarts (Self.meaning self.now)) }
        ensures few { IfOk result (λ tasks. length tasks < 2 ^ 32) };
}

impl Startable for Circuit {
    fn start_cells(&self) -> Result<Vec<u8>, NoRoom> {
        self.first_cells()
    }

    fn start_tasks(&self) -> Result<StartList, NoRoom> {
        self.first_tasks()
    }
}

impl Startable for Mesh {
    fn start_cells(&self) -> Result<Vec<MeshNode>, NoRoom> {
        self.first_cells()
    }

    fn start_tasks(&self) -> Result<StartList, NoRoom> {
        self.first_tasks()
    }
}
