//! Which of the clear tasks a worker claims.

/// Of how many of the earliest clear tasks that are known a choice picks one, at an open gate. One close to the
/// front leaves the list of them sooner than one in its middle.
const FRONT: u64 = 4;

/// Which of the clear tasks a worker claims.
#[derive(Clone, Copy)]
pub(crate) enum Pick {
    /// Of all, in key order the one at the remainder of this number.
    Exact(u64),
    /// Of those that are known, in key order the one at this place, or at the remainder where fewer are known.
    Known(u64),
}

impl Pick {
    /// One by what a gate chooses.
    pub(crate) fn by(choice: u64, is_open: bool) -> Pick {
        if is_open {
            Pick::Known(choice % FRONT)
        } else {
            Pick::Exact(choice)
        }
    }

    /// What is picked after it in the same turn: of all again by the number, and of those that are known
    /// the first, which leaves the list of them soonest.
    pub(crate) fn after(self) -> Pick {
        match self {
            Pick::Exact(number) => Pick::Exact(number),
            Pick::Known(_) => Pick::Known(0),
        }
    }
}
