ghost use Rattle.std.specs.Prelude.{◌≡◌, ◌<◌, ◌≤◌, ◌^◌, ◌*◌, ◌+◌, ◌++◌, [], length, map, nat_le, if◌then◌else◌, IfOk, OnOk};
ghost use Rattle.logic_sim.specs.Circuit.{changes_at, changes_for, changes_of, latest, longest_clock};
ghost use Rattle.logic_sim.specs.Event.{change_at, change_line, eval_at, final_line, tick_at, value_line};
ghost use Rattle.logic_sim.specs.Wiring.{gates_of};

use bench_reader::{Form, Signal, Stim};
use kdg_text::{NoRoom, Text, push_u64};
use std::alloc::Global;
use task_order::{Body, Start, StartList};

/// The kind of a task that gives a signal a value.
pub(crate) const CHANGE: u8 = 0;

/// The kind of a task that evaluates a gate.
pub(crate) const EVAL: u8 = 1;

/// The kind of a task that has a flip-flop take the value of its source.
pub(crate) const TICK: u8 = 2;

/// The signal takes the value at that time.
pub(crate) fn change_start(time: u64, signal: u32, value: u64) -> Start
    requires { 2 * time < 2 ^ 64 }
    ensures { result ≡ change_at time signal value }
{
    Start {
        prio: 2 * time,
        body: Body {
            kind: CHANGE,
            at: signal,
            arg: value,
        },
    }
}

/// The gate is evaluated at that time.
pub(crate) fn eval_start(time: u64, gate: u32) -> Start
    requires { 2 * time + 1 < 2 ^ 64 }
    ensures { result ≡ eval_at time gate }
{
    Start {
        prio: 2 * time + 1,
        body: Body {
            kind: EVAL,
            at: gate,
            arg: 0,
        },
    }
}

/// The flip-flop ticks at that time.
pub(crate) fn tick_start(time: u64, flip_flop: u32) -> Start
    requires { 2 * time + 1 < 2 ^ 64 }
    ensures { result ≡ tick_at time flip_flop }
{
    Start {
        prio: 2 * time + 1,
        body: Body {
            kind: TICK,
            at: flip_flop,
            arg: 0,
        },
    }
}

/// Each gate is evaluated at time 0.
#[tactic(auto, using(crate::proofs::Ranges::first_evals_gate, crate::proofs::Ranges::first_evals_input))]
pub(crate) fn first_evals(alloc: Global, signals: &[Signal]) -> Result<StartList, NoRoom>
    requires { length signals.now ≤ 4096 }
    ensures { IfOk result (λ starts. starts ≡ map (eval_at 0) (gates_of signals.now)) }
{
    let mut starts = StartList::new(alloc);
    for (number, signal) in signals.iter().enumerate() {
        if let Form::Gate { .. } = signal.form {
            starts.push(eval_start(0, number as u32))?;
        }
    }
    Ok(starts)
}

/// Each of the flip-flops ticks first at the time of the clock, unless that is later than `until`.
pub(crate) fn push_first_ticks(
    made: &mut StartList,
    until: u64,
    clock: u64,
    flip_flops: &[u32],
) -> Result<(), NoRoom>
    requires { clock ≤ longest_clock }
    ensures { OnOk result (made.new ≡ made.old ++ (if nat_le clock until then map (tick_at clock) flip_flops.now else [])) }
{
    if clock > until {
        return Ok(());
    }
    push_ticks(made, clock, flip_flops)
}

/// Each of the flip-flops ticks at that time.
fn push_ticks(made: &mut StartList, time: u64, flip_flops: &[u32]) -> Result<(), NoRoom>
    requires { time ≤ longest_clock }
    ensures { OnOk result (made.new ≡ made.old ++ map (tick_at time) flip_flops.now) }
{
    for &flip_flop in flip_flops {
        made.push(tick_start(time, flip_flop))?;
    }
    Ok(())
}

/// For each stimulus, each of the inputs takes its value, unless that comes later than `until`.
pub(crate) fn push_stimuli(
    made: &mut StartList,
    until: u64,
    inputs: &[u32],
    stimuli: &[Stim],
) -> Result<(), NoRoom>
    requires { until ≤ latest }
    ensures { OnOk result (made.new ≡ made.old ++ changes_of until inputs.now stimuli.now) }
{
    for stimulus in stimuli {
        push_stimulus(made, until, inputs, stimulus)?;
    }
    Ok(())
}

fn push_stimulus(
    made: &mut StartList,
    until: u64,
    inputs: &[u32],
    stimulus: &Stim,
) -> Result<(), NoRoom>
    requires { until ≤ latest }
    ensures { OnOk result (made.new ≡ made.old ++ changes_for until inputs.now stimulus.now) }
{
    if stimulus.time > until {
        return Ok(());
    }
    push_changes(made, stimulus.time, inputs, stimulus.bits.items())
}

/// How many changes the stimuli bring to these inputs, unless they come later than `until`.
pub(crate) fn change_count(until: u64, inputs: &[u32], stimuli: &[Stim]) -> usize
    requires inputs { length inputs.now ≤ 4096 }
    requires stimuli { length stimuli.now ≤ 65536 }
    ensures { result ≡ length (changes_of until inputs.now stimuli.now) }
{
    let mut count = 0;
    for stimulus in stimuli {
        if stimulus.time <= until {
            count += inputs.len().min(stimulus.bits.items().len());
        }
    }
    count
}

/// Each input takes its value at that time.
fn push_changes(
    made: &mut StartList,
    time: u64,
    inputs: &[u32],
    values: &[u32],
) -> Result<(), NoRoom>
    requires { 2 * time < 2 ^ 64 }
    ensures { OnOk result (made.new ≡ made.old ++ changes_at time inputs.now values.now) }
{
    let (mut inputs, mut values) = (inputs, values);
    while let ([input, other_inputs @ ..], [value, other_values @ ..]) = (inputs, values) {
        made.push(change_start(time, *input, u64::from(*value)))?;
        inputs = other_inputs;
        values = other_values;
    }
    Ok(())
}

/// How many bytes a line has beside the name, at most: a time, a value, two spaces and a line feed.
pub(crate) const MOST_BESIDE_NAME: usize = 26;

/// Writes that the signal of this name took the value at that time.
pub(crate) fn push_change(text: &mut Text, time: u64, name: &[u8], value: u8) -> Result<(), NoRoom>
    ensures { OnOk result (text.new ≡ text.old ++ change_line time name.now value) }
{
    push_u64(text, time)?;
    text.push_all(b" ")?;
    push_value(text, name, value)
}

/// Writes the value that the signal of this name has at the end.
pub(crate) fn push_final(text: &mut Text, name: &[u8], value: u8) -> Result<(), NoRoom>
    ensures { OnOk result (text.new ≡ text.old ++ final_line name.now value) }
{
    text.push_all(b"final ")?;
    push_value(text, name, value)
}

/// Writes the rest of a line.
fn push_value(text: &mut Text, name: &[u8], value: u8) -> Result<(), NoRoom>
    ensures { OnOk result (text.new ≡ text.old ++ value_line name.now value) }
{
    text.push_all(name)?;
    text.push_all(b" ")?;
    push_u64(text, u64::from(value))?;
    text.push_all(b"\n")
}
