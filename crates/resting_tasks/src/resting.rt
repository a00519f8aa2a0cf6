ghost use Rattle.std.specs.Prelude.{◌≡◌, ℕ, List, ◌<◌, ◌&&◌, ◌||◌, ◌==◌, false, IsTrue, IfSome, IfNone, IfOk, OnOk};
ghost use Rattle.rw_sets.specs.Accesses.{writes};
ghost use Rattle.cell_store.specs.Values.{homes, values_of};
ghost use Rattle.task_order.specs.declared.task.Task.{Task};
ghost use Rattle.app_laws.specs.Applications.{AreFitTasks};
ghost use Rattle.resting_tasks.specs.Resting.{HasSets, IsResting};

use app_laws::App;
use cell_store::Store;
use kdg_text::NoRoom;
use std::alloc::Global;
use task_order::Body;

/// An application whose tasks rest: a task's set names what it writes alone, a task makes no others and
/// is always safe, and where one acts, what any set has of the locations outside the acting task's set
/// stays as it was.
///
/// So a task that meets an earlier pending one at a location needn't be looked at again before a task
/// acts whose set has that location.
pub trait Resting: App {
    ghost use Rattle.std.specs.Prelude.{Bool};

    /// A set of locations.
    type Cover: Drop;

    /// Whether a cover has a location.
    ghost covers: { Self → Self.Cover → ℕ → Bool };

    /// A cover that has no location.
    fn no_cover(&self, alloc: Global) -> Self::Cover
        ensures { (loc : ℕ) → covers self.now result loc ≡ false };

    /// Takes all locations out.
    fn clear(&self, cover: &mut Self::Cover)
        ensures { (loc : ℕ) → covers self.now cover.new loc ≡ false };

    /// Whether the cover has a location.
    fn has(&self, cover: &Self::Cover, loc: u32) -> bool
        requires { loc < (Self.meaning self.now).count }
        ensures { result ≡ covers self.now cover.now loc };

    /// Puts a location in. After `NoRoom` the cover has what it had, or this location too.
    fn put(&self, cover: &mut Self::Cover, loc: u32) -> Result<(), NoRoom>
        requires { loc < (Self.meaning self.now).count }
        ensures { OnOk result ((other : ℕ) → covers self.now cover.new other ≡ (covers self.now cover.old other || loc == other)) };

    /// A location that the declared set of a task with this body always has.
    fn core(&self, body: &Body) -> u32
        requires { (prio : ℕ) × (Self.meaning self.now).is_fit_task prio body.now }
        ensures { (values : List Self.Val) → (Self.meaning self.now).is_fit_cells values → IsTrue (writes ((Self.meaning self.now).set_of body.now values) result) };

    /// Puts the declared set of a task with this body in. All cells are home. After `NoRoom` a part of the
    /// set may be in.
    fn cover(
        &self,
        body: &Body,
        store: &Store<Self::Val>,
        cover: &mut Self::Cover,
    ) -> Result<(), NoRoom>
        requires fit { (prio : ℕ) × (Self.meaning self.now).is_fit_task prio body.now }
        requires home { store.now ≡ homes (values_of store.now) }
        requires cells { (Self.meaning self.now).is_fit_cells (values_of store.now) }
        ensures { OnOk result ((loc : ℕ) → covers self.now cover.new loc ≡ (covers self.now cover.old loc || writes ((Self.meaning self.now).set_of body.now (values_of store.now)) loc)) };

    /// Puts the declared set of a task with this body into a cover that has just those of other tasks, so that
    /// what it has of them needn't be found again. All cells are home. After `NoRoom` a part of the set may be
    /// in.
    fn gather(
        &self,
        body: &Body,
        store: &Store<Self::Val>,
        cover: &mut Self::Cover,
    ) -> Result<(), NoRoom>
        requires fit { (prio : ℕ) × (Self.meaning self.now).is_fit_task prio body.now }
        requires home { store.now ≡ homes (values_of store.now) }
        requires cells { (Self.meaning self.now).is_fit_cells (values_of store.now) }
        requires others { (tasks : List Task) × AreFitTasks (Self.meaning self.now) tasks × HasSets (Self.meaning self.now) (covers self.now cover.old) (values_of store.now) tasks }
        ensures { OnOk result ((loc : ℕ) → covers self.now cover.new loc ≡ (covers self.now cover.old loc || writes ((Self.meaning self.now).set_of body.now (values_of store.now)) loc)) };

    /// Puts all locations of another cover in. After `NoRoom` a part of them may be in.
    fn join(&self, cover: &mut Self::Cover, other: &Self::Cover) -> Result<(), NoRoom>
        ensures { OnOk result ((loc : ℕ) → covers self.now cover.new loc ≡ (covers self.now cover.old loc || covers self.now other.now loc)) };

    /// A location that both covers have, where there is one.
    fn shared(&self, one: &Self::Cover, other: &Self::Cover) -> Option<u32>
        ensures both { IfSome result (λ loc. IsTrue (covers self.now one.now loc && covers self.now other.now loc)) }
        ensures none { IfNone result ((loc : ℕ) → IsTrue (covers self.now one.now loc) → covers self.now other.now loc ≡ false) };

    /// A location that both the declared set of a task with this body and the cover have, where there is
    /// one. All cells are home.
    fn common(&self, body: &Body, store: &Store<Self::Val>, cover: &Self::Cover) -> Option<u32>
        requires fit { (prio : ℕ) × (Self.meaning self.now).is_fit_task prio body.now }
        requires home { store.now ≡ homes (values_of store.now) }
        requires cells { (Self.meaning self.now).is_fit_cells (values_of store.now) }
        ensures in_set { IfSome result (λ loc. IsTrue (writes ((Self.meaning self.now).set_of body.now (values_of store.now)) loc)) }
        ensures in_cover { IfSome result (λ loc. IsTrue (covers self.now cover.now loc)) }
        ensures none { IfNone result ((loc : ℕ) → IsTrue (writes ((Self.meaning self.now).set_of body.now (values_of store.now)) loc) → covers self.now cover.now loc ≡ false) };

    /// What is asked of an application whose tasks rest.
    ghost rests: { (app : Self) → IsResting (Self.meaning app) };
}

/// The laws of an application whose tasks rest, as one.
pub fn rest_laws<A: Resting>()
    ensures { (app : A) → IsResting (A.meaning app) }
{}
