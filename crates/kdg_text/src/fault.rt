ghost use Rattle.kdg_text.specs.declared.fault.ReadFail.TheVariants as refusals;
ghost use Rattle.std.specs.Prelude.{◌≡◌, List, Option, None, Some};
ghost use Rattle.kdg_text.specs.Faults.{Numbered, fault_on, first_fault, IsFaultless, IsFirstFault};
ghost use Rattle.kdg_text.specs.declared.fault.Fault.{Fault};
ghost use Rattle.kdg_text.specs.declared.fault.LineFault.{LineFault};

use crate::NoRoom;
use std::alloc::{AllocError, AllocFailed};

/// What a reader found wrong with its input.
#[derive(Clone, Copy, Debug, PartialEq, Eq)]
pub struct Fault {
    /// The line, counted from 1. What shows only at the end is one past the last line.
    pub line: u64,
    /// The reader's own number for the kind of fault.
    pub kind: u8,
    /// The limit that the input goes beyond, or 0 for every other kind.
    pub bound: u64,
}

/// What is wrong with one line.
#[derive(Clone, Copy, Debug, PartialEq, Eq)]
pub struct LineFault {
    /// The reader's own number for the kind of fault.
    pub kind: u8,
    /// The limit that the line goes beyond, or 0 for every other kind.
    pub bound: u64,
}

impl LineFault {
    /// The fault as one of the line of that number.
    pub fn on_line(self, line: u64) -> Fault
        ensures { result ≡ fault_on line self }
    {
        Fault {
            line,
            kind: self.kind,
            bound: self.bound,
        }
    }
}

/// The first fault of lines is the one of the first line that has any, beside the lines before it,
/// and lines have none exactly where each is without one.
pub fn first_fault_law<L>()
    ensures found { (judge : List (Numbered L) → L → Option LineFault) (lines : List (Numbered L)) (fault : Fault) → first_fault judge lines ≡ Some fault → IsFirstFault judge lines fault }
    ensures none { (judge : List (Numbered L) → L → Option LineFault) (lines : List (Numbered L)) → first_fault judge lines ≡ None → IsFaultless judge lines }
{}

/// Why a reader gave nothing.
#[derive(Clone, Copy, Debug, PartialEq, Eq)]
pub enum ReadFail {
    /// The input has a fault.
    Bad(Fault),
    /// No memory was to be had.
    NoRoom,
}

impl From<NoRoom> for ReadFail {
    ghost from_gives = { λ _ failure. failure ≡ refusals.NoRoom };

    fn from(_: NoRoom) -> ReadFail {
        ReadFail::NoRoom
    }
}

impl From<AllocError> for ReadFail {
    ghost from_gives = { λ _ failure. failure ≡ refusals.NoRoom };

    fn from(_: AllocError) -> ReadFail {
        ReadFail::NoRoom
    }
}

impl<T: Drop> From<AllocFailed<T>> for ReadFail {
    ghost from_gives = { λ _ failure. failure ≡ refusals.NoRoom };

    fn from(_: AllocFailed<T>) -> ReadFail {
        ReadFail::NoRoom
    }
}
