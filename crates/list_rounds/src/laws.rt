ghost use Rattle.list_rounds.specs.Basis.{Basis};

use app_laws::{App, lawful, naming_laws};
use cell_store::value_laws;
use commuting::{
    clear_tasks_all_commute, clear_tasks_stay_clear, independent_tasks_commute,
    listed_tasks_come_to_same, round_laws, standing_laws,
};
use output_log::{join_laws, part_laws};
use task_order::{ascending_laws, earlier_laws, key_order, put_all_laws, without_laws};

/// What the crates below promise, as one.
pub(crate) fn basis<A: App>()
    ensures { (app : A) → Basis (A.meaning app) }
{
    lawful::<A>();
    standing_laws::<A>();
    round_laws::<A>();
    clear_tasks_all_commute::<A>();
    clear_tasks_stay_clear::<A>();
    independent_tasks_commute::<A>();
    listed_tasks_come_to_same::<A>();
    naming_laws();
    key_order();
    earlier_laws();
    ascending_laws();
    put_all_laws();
    without_laws();
    join_laws();
    part_laws();
    value_laws::<A::Val>();
}
