ghost use Rattle.std.specs.Prelude.{◌≡◌};
ghost use Rattle.mtx_reader.specs.Faults.{beyond};

use kdg_text::LineFault;

/// The first line is missing, or isn't the banner of a matrix.
pub(crate) const BANNER: LineFault = LineFault { kind: 1, bound: 0 };

/// The banner has a word that is known and not taken.
pub(crate) const UNSUPPORTED: LineFault = LineFault { kind: 2, bound: 0 };

/// The size is missing, isn't three numbers, or isn't square where the matrix is symmetric.
pub(crate) const SIZE: LineFault = LineFault { kind: 3, bound: 0 };

/// An entry isn't two numbers and, where entries have values, a third.
pub(crate) const ENTRY: LineFault = LineFault { kind: 4, bound: 0 };

/// An entry lies outside of the matrix.
pub(crate) const PLACE: LineFault = LineFault { kind: 5, bound: 0 };

/// The input ends before as many entries as the size says.
pub(crate) const FEW: LineFault = LineFault { kind: 6, bound: 0 };

/// A line follows the last entry.
pub(crate) const MANY: LineFault = LineFault { kind: 7, bound: 0 };

/// The size goes beyond this limit.
pub(crate) fn beyond(bound: u64) -> LineFault
    ensures { result ≡ beyond bound }
{
    LineFault { kind: 8, bound }
}
