ghost use Rattle.std.specs.Prelude.{IfOk};
ghost use Rattle.app_laws.specs.Names.{AreListed};
ghost use Rattle.app_laws.specs.Order.{AreApart, Pairwise};

use kdg_text::NoRoom;
use task_order::{Start, Task};

/// The priorities and bodies of tasks, in the order of their paths.
pub fn starts_by_path(mut tasks: Vec<Task>) -> Result<Vec<Start>, NoRoom>
    requires { Pairwise (λ task other. AreApart task.key.path other.key.path) tasks.items }
    ensures { IfOk result (λ first. AreListed tasks.items first.items) }
{
    tasks.sort_unstable_by(|one, other| one.key.path.cmp(&other.key.path));
    let mut first = Vec::with_capacity(*tasks.allocator(), tasks.len())?;
    for task in &tasks {
        first.push(Start {
            prio: task.key.prio,
            body: task.body,
        })?;
    }
    Ok(first)
}
