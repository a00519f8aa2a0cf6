ghost use Rattle.std.specs.Prelude.{◌≡◌};
ghost use Rattle.std.specs.Borrow.{Bor};
ghost use Rattle.task_order.specs.declared.task.Task.{Task};

use app_laws::Effect;
use cell_store::{Bundle, Held};
use task_order::Task;

/// An operator that is stored: what can be called with a task and its bundle. A closure is one.
pub trait Hook<V: Held>: Drop {
    ghost use Rattle.std.specs.Prelude.{Result};
    ghost use Rattle.cell_store.specs.Part.{Part};
    ghost use Rattle.app_laws.specs.declared.app.Effect.{Effect};
    ghost use Rattle.task_order.specs.declared.task.Task.{Task};

    /// It may be called with this task and this bundle.
    ghost may: { Self → Task → Part V → Type 0 };

    /// Such a call may answer this.
    ghost gives: { Self → Task → Part V → Result (Effect V) (Part V) → Type 0 };

    /// Calls it.
    fn call(&self, task: &Task, bundle: Bundle<V>) -> Result<Effect<V>, Bundle<V>>
        requires { may self.now task.now bundle }
        ensures { gives self.now task.now bundle result };
}

impl<V: Held, F: Fn(&Task, Bundle<V>) -> Result<Effect<V>, Bundle<V>>> Hook<V> for F {
    ghost may = { λ f task bundle. (p : Bor Task) → p.now ≡ task → F.pre f p bundle };

    ghost gives = { λ f task bundle answer. (p : Bor Task) × (p.now ≡ task) × F.post f p bundle answer };

    fn call(&self, task: &Task, bundle: Bundle<V>) -> Result<Effect<V>, Bundle<V>>
        requires { (p : Bor Task) → p.now ≡ task.now → F.pre self.now p bundle }
        ensures { (p : Bor Task) × (p.now ≡ task.now) × F.post self.now p bundle result }
    {
        self(task, bundle)
    }
}
