ghost use Rattle.std.specs.Prelude.{◌≡◌, ◌<◌, length, IfOk, IfErr};
ghost use Rattle.app_laws.specs.Applications.{IsFitTask, IsTaken, IsEffect};
ghost use Rattle.hook_app.specs.Hooked.{FitTogether, hooked, set_at};
ghost use Rattle.hook_app.specs.Kept.{HookKeeps};

use crate::{Deed, Hook};
use app_laws::{App, Effect, SetAnswer};
use cell_store::{Bundle, Store, value_laws};
use kdg_text::{NoRoom, Steps};
use rw_sets::RwSet;
use std::alloc::Global;
use std::marker::Model;
use std::sync::ledger::Ledger;
use task_order::{Body, PendingTasks, Task};

/// An application made of a stored operator, the sets that bodies name by their numbers, and a
/// lookahead: by how much each child's priority is above its parent's at least.
#[derive(Drop)]
pub struct HookApp<'d, D: Deed, H: Hook<D::Val>> {
    deed: &'d D,
    cells: u32,
    sets: Vec<RwSet>,
    ahead: u64,
    hook: H,
}

impl<'d, D: Deed, H: Hook<D::Val>> Model for HookApp<'d, D, H> {
    ghost use Rattle.hook_app.specs.Hooked.{Hooked};
    ghost use Rattle.hook_app.specs.Kept.{HookKeeps};

    ghost Value = { Hooked D H };

    ghost view = { λ a. record { deed = a.deed.now; cells = a.cells; sets = a.sets.items; ahead = a.ahead; hook = a.hook } };

    ghost invariant = { λ a. HookKeeps (D.meaning a.deed.now) a.cells a.sets.items a.ahead (H.may a.hook) (H.gives a.hook) };
}

impl<'d, D: Deed, H: Hook<D::Val>> HookApp<'d, D, H> {
    /// An application of these parts, which belong together. It has that many cells, a task with a
    /// body has the set of the number `at`, and each child comes later than its parent by the
    /// lookahead at least. Takes no memory.
    pub fn new(deed: &'d D, cells: u32, sets: Vec<RwSet>, ahead: u64, hook: H) -> HookApp<'d, D, H>
        requires keeps { HookKeeps (D.meaning deed.now) cells sets.items ahead (H.may hook) (H.gives hook) }
        ensures { result ≡ record { deed = deed.now; cells = cells; sets = sets.items; ahead = ahead; hook = hook } }
    {
        HookApp {
            deed,
            cells,
            sets,
            ahead,
            hook,
        }
    }

    /// The set of a number.
    pub fn set_of(&self, at: u32) -> &RwSet
        requires { at < length self.now.sets }
        ensures { result.now ≡ set_at self.now.sets at }
    {
        &self.sets[at as usize]
    }

    /// By how much each child's priority is above its parent's at least.
    pub fn ahead(&self) -> u64
        ensures { result ≡ self.now.ahead }
    {
        self.ahead
    }

    /// What the operator does.
    pub fn deed(&self) -> &'d D
        ensures deed { result.now ≡ self.now.deed }
        ensures together { FitTogether (D.meaning self.now.deed) self.now.cells self.now.sets self.now.ahead }
    {
        self.deed
    }
}

impl<'d, D: Deed, H: Hook<D::Val>> App for HookApp<'d, D, H> {
    ghost use Rattle.std.specs.Prelude.{true};
    ghost use Rattle.hook_app.specs.Hooked.{hooked};
    ghost use Rattle.hook_app.specs.Lawful as lawful;

    type Val = D::Val;

    type Horizon = ();

    ghost meaning = { λ app. hooked (D.meaning app.deed) app.cells app.sets app.ahead };

    ghost tells = { λ app horizon tasks. Unit {0} };

    ghost has_fixed_sets = { λ app. true };

    fn cells(&self) -> u32 {
        self.cells
    }

    #[inline(always)]
    fn sets<L: Ledger>(
        &self,
        body: &Body,
        _store: &Store<D::Val>,
        steps: &mut Steps<L>,
    ) -> Result<SetAnswer, NoRoom> {
        steps.tick();
        Ok(SetAnswer::Known(self.sets[body.at as usize].copy()?))
    }

    fn sets_are_fixed(&self) -> bool {
        true
    }

    fn ignores_paths(&self) -> bool {
        true
    }

    fn task_nanos(&self) -> Option<u64> {
        self.deed.task_nanos()
    }

    fn horizon(&self, _alloc: Global) -> Result<(), NoRoom> {
        Ok(())
    }

    fn touch(&self, _horizon: &mut (), _body: &Body) {}

    // Where the earliest task comes late enough, all do; where it doesn't, it is the one that counts,
    // unless it isn't earlier.
    #[inline(always)]
    fn safe<P: PendingTasks>(&self, task: &Task, pending: &P, _horizon: &mut ()) -> bool {
        let Some(first) = pending.earliest() else {
            return true;
        };
        match task.key.prio.checked_sub(first.key.prio) {
            None => true,
            Some(gap) => gap < self.ahead || first.key.compare(&task.key).is_ge(),
        }
    }

    #[inline(always)]
    fn run(&self, task: &Task, bundle: Bundle<D::Val>) -> Result<Effect<D::Val>, Bundle<D::Val>>
        requires fit { IsFitTask (hooked (D.meaning self.now.deed) self.now.cells self.now.sets self.now.ahead) task.now }
        requires cells { IsTaken (hooked (D.meaning self.now.deed) self.now.cells self.now.sets self.now.ahead) task.now bundle }
        ensures effect { IfOk result (IsEffect (hooked (D.meaning self.now.deed) self.now.cells self.now.sets self.now.ahead) task.now bundle) }
        ensures returned { IfErr result (λ back. back ≡ bundle) }
    {
        value_laws::<D::Val>();
        self.hook.call(task, bundle)
    }

    ghost lawful = { λ app. lawful.are_lawful (D.meaning app.deed) app.cells app.sets app.ahead };
}
