ghost use Rattle.resting_rounds.specs.Basis.{Basis};

use app_laws::lawful;
use resting_tasks::{Resting, rest_laws};
use rw_sets::conflict_laws;
use task_order::{ascending_laws, earlier_laws, without_laws};

/// What the crates below promise, as one.
pub(crate) fn basis<A: Resting>()
    ensures { (app : A) → Basis (A.meaning app) }
{
    lawful::<A>();
    rest_laws::<A>();
    conflict_laws();
    ascending_laws();
    earlier_laws();
    without_laws();
}
