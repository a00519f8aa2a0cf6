use cell_store::Held;
use kdg_text::NoRoom;

/// How far a vertex is from the start of a search, once a task has come to it.
#[derive(Clone, Copy, Debug, PartialEq, Eq)]
pub enum Level {
    /// No task has come to it.
    Unset,
    /// So many edges away.
    At(u32),
}

impl Held for Level {
    fn copy(&self) -> Result<Level, NoRoom> {
        Ok(*self)
    }
}
