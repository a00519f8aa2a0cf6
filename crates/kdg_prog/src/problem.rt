use app_laws::App;
use cell_store::{Store, value_laws};
use gf2_eliminate::{Line2, Matrix};
use hook_app::{Hook, HookApp};
use kdg_text::{NoRoom, Text};
use level_walk::{Level, Walk};
use logic_sim::Circuit;
use spring_mesh::{Mesh, MeshNode};
use task_order::StartList;

/// An application with its start, and with the text that its cells give at the end. Workers share
/// it.
pub(crate) trait Runnable: App + Sync {
    ghost use Rattle.std.specs.Prelude.{◌≡◌, ◌<◌, ◌^◌, length, IfOk, IfSome};
    ghost use Rattle.cell_store.specs.Values.{AreAllHome, values_of};
    ghost use Rattle.app_laws.specs.Applications.{AreFitStarts};
    ghost use Rattle.kdg_prog.specs.Problem.{Setting};

    /// What its run begins with, and what its cells give at the end.
    ghost setting: { Self → Setting Self.Val };

    /// How many tasks there are at the start, where they are more than the budget and enough that
    /// it pays to know before they are made.
    fn too_many_tasks(&self, budget: u64) -> Option<u64>
        ensures { IfSome result (λ created. (created ≡ length (setting self.now).tasks) × (budget < created)) };

    /// The cells at the start.
    fn start_cells(&self) -> Result<Vec<Self::Val>, NoRoom>
        ensures cells { IfOk result (λ cells. cells.items ≡ (setting self.now).cells) }
        ensures fit { IfOk result (λ cells. (Self.meaning self.now).is_fit_cells cells.items) };

    /// The tasks at the start.
    fn start_tasks(&self) -> Result<StartList, NoRoom>
        ensures tasks { IfOk result (λ tasks. tasks ≡ (setting self.now).tasks) }
        ensures fit { IfOk result (AreFitStarts (Self.meaning self.now)) }
        ensures few { IfOk result (λ tasks. length tasks < 2 ^ 32) };

    /// The text that the cells give at the end, when they are all home.
    fn final_text(&self, store: &Store<Self::Val>) -> Result<Text, NoRoom>
        requires home { AreAllHome store.now }
        requires cells { (Self.meaning self.now).is_fit_cells (values_of store.now) }
        ensures { IfOk result (λ text. text ≡ (setting self.now).finals (values_of store.now)) };
}

impl Runnable for Circuit {
    ghost use Rattle.kdg_prog.specs.Answer.{circuit_setting};

    ghost setting = { circuit_setting };

    fn too_many_tasks(&self, budget: u64) -> Option<u64> {
        let created = self.first_task_count();
        if created > budget {
            Some(created)
        } else {
            None
        }
    }

    fn start_cells(&self) -> Result<Vec<u8>, NoRoom> {
        self.first_cells()
    }

    fn start_tasks(&self) -> Result<StartList, NoRoom> {
        self.first_tasks()
    }

    fn final_text(&self, store: &Store<u8>) -> Result<Text, NoRoom> {
        self.print_finals(store)
    }
}

impl Runnable for Matrix {
    ghost use Rattle.kdg_prog.specs.Answer.{pattern_setting};

    ghost setting = { pattern_setting };

    fn too_many_tasks(&self, _budget: u64) -> Option<u64> {
        None
    }

    fn start_cells(&self) -> Result<Vec<Line2>, NoRoom> {
        self.first_cells()
    }

    fn start_tasks(&self) -> Result<StartList, NoRoom> {
        self.first_tasks()
    }

    fn final_text(&self, store: &Store<Line2>) -> Result<Text, NoRoom> {
        value_laws::<Line2>();
        self.print_finals(store)
    }
}

impl Runnable for Mesh {
    ghost use Rattle.kdg_prog.specs.Answer.{mesh_setting};

    ghost setting = { mesh_setting };

    fn too_many_tasks(&self, _budget: u64) -> Option<u64> {
        None
    }

    fn start_cells(&self) -> Result<Vec<MeshNode>, NoRoom> {
        self.first_cells()
    }

    fn start_tasks(&self) -> Result<StartList, NoRoom> {
        self.first_tasks()
    }

    fn final_text(&self, store: &Store<MeshNode>) -> Result<Text, NoRoom> {
        self.print_finals(store)
    }
}

impl<'d, H: Hook<Level> + Sync> Runnable for HookApp<'d, Walk, H> {
    ghost use Rattle.kdg_prog.specs.Answer.{search_setting};

    ghost setting = { λ app. search_setting app.deed app.cells };

    fn too_many_tasks(&self, _budget: u64) -> Option<u64> {
        None
    }

    fn start_cells(&self) -> Result<Vec<Level>, NoRoom> {
        self.deed().unset_levels(self.cells())
    }

    fn start_tasks(&self) -> Result<StartList, NoRoom> {
        self.deed().first_tasks()
    }

    fn final_text(&self, store: &Store<Level>) -> Result<Text, NoRoom> {
        value_laws::<Level>();
        self.deed().print_finals(store)
    }
}
