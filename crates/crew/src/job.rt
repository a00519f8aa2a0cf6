use app_laws::Effect;
use cell_store::{Bundle, Held};
use task_order::Task;

/// A claimed task with its bundle.
#[derive(Drop)]
pub struct Job<N, V: Held> {
    /// What names the task where it was claimed.
    pub node: N,
    pub task: Task,
    pub bundle: Bundle<V>,
}

/// A performed task with what it did.
#[derive(Drop)]
pub struct Done<N, V: Held> {
    /// What names the task where it was claimed.
    pub node: N,
    pub task: Task,
    pub effect: Effect<V>,
}
