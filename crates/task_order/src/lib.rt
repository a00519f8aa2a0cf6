//! Tasks and the order in which they run: keys, paths of birth, and lists of tasks by key.
#![tactic(auto)]

mod block;
mod blocks;
mod key;
mod laws;
mod path;
mod pending_tasks;
mod start;
mod task;
mod task_list;

pub use blocks::Tasks;
pub use key::{Key, key_order};
pub use laws::{
    ascending_laws, before_laws, beginning_laws, earlier_laws, put_all_laws, put_in_laws,
    without_laws,
};
pub use path::Path;
pub use pending_tasks::PendingTasks;
pub use start::{Start, StartList};
pub use task::{Body, Task};
pub use task_list::TaskList;
