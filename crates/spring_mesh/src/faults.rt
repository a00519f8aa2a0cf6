ghost use Rattle.std.specs.Prelude.{◌≡◌};
ghost use Rattle.spring_mesh.specs.Faults.{beyond};

use kdg_text::LineFault;

/// The line has none of the forms, or comes behind the end.
pub(crate) const SYNTAX: LineFault = LineFault { kind: 1, bound: 0 };

/// A word is no number, or out of its range.
pub(crate) const BAD_NUMBER: LineFault = LineFault { kind: 2, bound: 0 };

/// The ends of a spring aren't two nodes of earlier lines.
pub(crate) const NO_NODE: LineFault = LineFault { kind: 3, bound: 0 };

/// No line has the end.
pub(crate) const NO_END: LineFault = LineFault { kind: 5, bound: 0 };

/// The line goes beyond this limit.
pub(crate) fn beyond(bound: u64) -> LineFault
    ensures { result ≡ beyond bound }
{
    LineFault { kind: 4, bound }
}
