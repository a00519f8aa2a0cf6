ghost use Rattle.std.specs.Prelude.{◌≡◌, ◌↔◌, IsTrue};
ghost use Rattle.rw_sets.specs.Accesses.{is_write, stronger, excludes};

/// What a task does with the cell at a location.
#[derive(Clone, Copy, Debug, PartialEq, Eq)]
pub enum Access {
    /// The cell is read, and stays as it is.
    Read,
    /// The cell may be changed.
    Write,
}

impl Access {
    /// Whether it is Write.
    pub fn is_write(self) -> bool
        ensures { result ≡ is_write self }
    {
        match self {
            Access::Read => false,
            Access::Write => true,
        }
    }

    /// Write where either is Write.
    pub(crate) fn stronger(self, other: Access) -> Access
        ensures { result ≡ stronger self other }
    {
        match self {
            Access::Read => other,
            Access::Write => Access::Write,
        }
    }

    /// Whether at least one of the two is Write, so that they cannot go side by side.
    pub(crate) fn excludes(self, other: Access) -> bool
        ensures { result ≡ excludes self other }
    {
        self.is_write() || other.is_write()
    }
}
