ghost use Rattle.std.specs.Prelude.{◌≡◌};
ghost use Rattle.bench_reader.specs.Faults.{beyond};

use kdg_text::LineFault;

/// The line has none of the forms, or a byte that isn't allowed.
pub(crate) const SYNTAX: LineFault = LineFault { kind: 1, bound: 0 };

/// A gate's word names no kind.
pub(crate) const UNKNOWN_KIND: LineFault = LineFault { kind: 2, bound: 0 };

/// A form that is known and not taken.
pub(crate) const UNSUPPORTED: LineFault = LineFault { kind: 3, bound: 0 };

/// A gate of this kind has one fan-in.
pub(crate) const ARITY: LineFault = LineFault { kind: 4, bound: 0 };

/// An earlier line defines the name, or gives it a delay.
pub(crate) const DOUBLE: LineFault = LineFault { kind: 5, bound: 0 };

/// No line defines the name, or none as a gate that can have a delay.
pub(crate) const UNDEFINED: LineFault = LineFault { kind: 6, bound: 0 };

/// A stimulus has another number of bits than there are primary inputs.
pub(crate) const BIT_COUNT: LineFault = LineFault { kind: 7, bound: 0 };

/// A time or a delay is no number, or none that it may be.
pub(crate) const BAD_NUMBER: LineFault = LineFault { kind: 8, bound: 0 };

/// The line goes beyond this limit.
pub(crate) fn beyond(bound: u64) -> LineFault
    ensures { result ≡ beyond bound }
{
    LineFault { kind: 9, bound }
}
