ghost use Rattle.std.specs.Prelude.{◌≡◌, All};
ghost use Rattle.logic_sim.specs.Bundles.{IsReadable, computed_from, values_held};
ghost use Rattle.logic_sim.specs.Gate.{bit_of, count_ones_of, is_high};
ghost use Rattle.logic_sim.specs.Wiring.{fan_in_of};

use crate::cells::Cells;
use bench_reader::{Form, GateKind};

/// What a gate computes where `ones` of its inputs are 1.
pub(crate) fn output_of(kind: GateKind, ones: usize, inputs: usize) -> u8
    ensures { result ≡ bit_of (is_high kind ones inputs) }
{
    let is_high = match kind {
        GateKind::And => ones == inputs,
        GateKind::Nand => ones != inputs,
        GateKind::Or | GateKind::Buff => ones != 0,
        GateKind::Nor | GateKind::Not => ones == 0,
        GateKind::Xor => ones % 2 == 1,
        GateKind::Xnor => ones % 2 != 1,
    };
    u8::from(is_high)
}

/// How many of the signals have the value 1.
fn count_high<C: Cells>(signals: &[u32], cells: &C) -> usize
    requires { All (IsReadable (C.can_read cells.now)) signals.now }
    ensures { result ≡ count_ones_of (values_held (C.held cells.now) signals.now) }
{
    signals
        .iter()
        .filter(|&&signal| cells.value(2 * signal) == 1)
        .count()
}

/// What a gate computes from the values of its fan-ins; an input computes nothing, and a flip-flop
/// takes the value of its source.
#[inline(always)]
pub(crate) fn computed_value<C: Cells>(form: &Form, cells: &C) -> u8
    requires { All (IsReadable (C.can_read cells.now)) (fan_in_of form.now) }
    ensures { result ≡ computed_from (C.held cells.now) form.now }
{
    match form {
        Form::Input => 0,
        Form::Gate { kind, fan_in } => {
            let fan_in = fan_in.items();
            output_of(*kind, count_high(fan_in, cells), fan_in.len())
        }
        Form::Dff { source } => cells.value(2 * *source),
    }
}
