ghost use Rattle.level_search.specs.Basis.{Basis};

use app_laws::execution_laws;
use level_walk::Level;
use output_log::part_laws;
use task_order::{ascending_laws, earlier_laws, key_order, put_in_laws, without_laws};

/// What the crates below promise, as one.
pub(crate) fn basis()
    ensures { Basis }
{
    execution_laws::<Level>();
    key_order();
    put_in_laws();
    earlier_laws();
    ascending_laws();
    without_laws();
    part_laws();
}
