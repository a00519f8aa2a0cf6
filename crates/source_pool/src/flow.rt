use app_laws::Finals;
use cell_store::Held;

/// What a run that writes its text to a sink comes to.
#[derive(Drop)]
pub enum Flow<V: Held> {
    /// No task is pending any more.
    Ended {
        /// The final cells, what is left of the text that wasn't written, and how many tasks have ended.
        finals: Finals<V>,
        /// How many rounds it took.
        rounds: u64,
        /// Whether a write failed.
        failed: bool,
    },
    /// More tasks than allowed would have been created.
    Budget {
        /// How many there would have been.
        created: u64,
        /// How many are allowed.
        limit: u64,
        /// Whether a write failed.
        failed: bool,
    },
    /// No memory was to be had.
    NoRoom,
}
