ghost use Rattle.std.specs.Prelude.{◌≡◌, ◌<◌, ◌≤◌, [], All, IfOk, OnOk, length, map, replicate};
ghost use Rattle.bench_reader.specs.Decks.{IsWired};
ghost use Rattle.rw_sets.specs.Accesses.{merged};
ghost use Rattle.logic_sim.specs.Event.{value_place};
ghost use Rattle.logic_sim.specs.Meaning.{eval_accesses};
ghost use Rattle.logic_sim.specs.Tables.{AddsReader, ListsReaders, MarksOutputs, last_is, sets_among};
ghost use Rattle.logic_sim.specs.Wiring.{fan_in_of, flip_flops_of, inputs_of, watched_by};

use bench_reader::{Form, Signal};
use kdg_text::{NoRoom, NumList};
use rw_sets::{Access, RwSet};
use std::alloc::Global;

/// The primary inputs, in order.
#[tactic(auto, using(crate::proofs::Ranges::inputs_input, crate::proofs::Ranges::inputs_other))]
pub(crate) fn input_numbers(alloc: Global, signals: &[Signal]) -> Result<NumList, NoRoom>
    requires { length signals.now ≤ 4096 }
    ensures { IfOk result (λ numbers. numbers ≡ inputs_of signals.now) }
{
    let mut numbers = NumList::new(alloc);
    for (number, signal) in signals.iter().enumerate() {
        if let Form::Input = signal.form {
            numbers.push(number as u32)?;
        }
    }
    Ok(numbers)
}

/// The flip-flops, in order.
#[tactic(auto, using(crate::proofs::Ranges::flip_flops_one, crate::proofs::Ranges::flip_flops_other))]
pub(crate) fn flip_flop_numbers(alloc: Global, signals: &[Signal]) -> Result<NumList, NoRoom>
    requires { length signals.now ≤ 4096 }
    ensures { IfOk result (λ numbers. numbers ≡ flip_flops_of signals.now) }
{
    let mut numbers = NumList::new(alloc);
    for (number, signal) in signals.iter().enumerate() {
        if let Form::Dff { .. } = signal.form {
            numbers.push(number as u32)?;
        }
    }
    Ok(numbers)
}

/// For each signal, the gates that read it.
pub(crate) fn reader_lists(alloc: Global, signals: &[Signal]) -> Result<Vec<NumList>, NoRoom>
    requires few { length signals.now ≤ 4096 }
    requires wired { All (λ signal. IsWired (length signals.now) signal.form) signals.now }
    ensures { IfOk result (λ table. ListsReaders signals.now (length signals.now) table.items) }
{
    let mut table = empty_lists(alloc, signals.len())?;
    for (number, signal) in signals.iter().enumerate() {
        add_reader(&mut table, watched_by(&signal.form), number as u32)?;
    }
    Ok(table)
}

/// The signals of which each change has this one evaluated: a flip-flop waits for its clock.
pub(crate) fn watched_by(form: &Form) -> &[u32]
    ensures { result.now ≡ watched_by form.now }
{
    match form {
        Form::Gate { fan_in, .. } => fan_in.items(),
        Form::Input | Form::Dff { .. } => &[],
    }
}

/// So many empty lists.
fn empty_lists(alloc: Global, count: usize) -> Result<Vec<NumList>, NoRoom>
    ensures { IfOk result (λ lists. lists.items ≡ replicate count []) }
{
    let mut lists = Vec::with_capacity(alloc, count)?;
    for _ in 0..count {
        lists.push(NumList::new(alloc))?;
    }
    Ok(lists)
}

/// Adds the gate to the list of each signal that it reads. It is added once, since it is the last
/// of a list that it was added to before.
fn add_reader(table: &mut Vec<NumList>, fan_in: &[u32], gate: u32) -> Result<(), NoRoom>
    requires in_range { All (λ signal. signal < length table.old.items) fan_in.now }
    requires earlier { All (λ gates. All (λ other. other < gate) gates) table.old.items }
    ensures { OnOk result (AddsReader table.old.items fan_in.now gate table.new.items) }
{
    for &signal in fan_in {
        let gates = &mut table[signal as usize];
        if !ends_with(gates.items(), gate) {
            gates.push(gate)?;
        }
    }
    Ok(())
}

fn ends_with(numbers: &[u32], number: u32) -> bool
    ensures { result ≡ last_is number numbers.now }
{
    match numbers {
        [.., last] => *last == number,
        [] => false,
    }
}

/// For each of `signals` signals, whether it is an output.
pub(crate) fn output_marks(
    alloc: Global,
    outputs: &[u32],
    signals: usize,
) -> Result<Vec<bool>, NoRoom>
    requires { All (λ output. output < signals) outputs.now }
    ensures { IfOk result (λ marks. MarksOutputs outputs.now signals marks.items) }
{
    let mut marks = vec![in alloc; false; signals]?;
    for &output in outputs {
        marks[output as usize] = true;
    }
    Ok(marks)
}

/// For each signal, the set that its evaluation declares.
#[tactic(auto, using(crate::proofs::Sets::sets_more))]
pub(crate) fn evaluation_sets(alloc: Global, signals: &[Signal]) -> Result<Vec<RwSet>, NoRoom>
    requires few { length signals.now ≤ 4096 }
    requires wired { All (λ signal. IsWired (length signals.now) signal.form) signals.now }
    ensures { IfOk result (λ sets. sets.items ≡ sets_among signals.now (length signals.now)) }
{
    let mut sets = Vec::with_capacity(alloc, signals.len())?;
    for (number, signal) in signals.iter().enumerate() {
        sets.push(evaluation_set(alloc, &signal.form, number as u32)?)?;
    }
    Ok(sets)
}

/// The set that the evaluation of a gate or the tick of a flip-flop declares: the values of its
/// fan-ins are read, and what is planned for it is written. A fan-in that stands twice is there once.
fn evaluation_set(alloc: Global, form: &Form, gate: u32) -> Result<RwSet, NoRoom>
    requires gate { gate < 4096 }
    requires fan_in { All (λ signal. signal < 4096) (fan_in_of form.now) }
    ensures { IfOk result (λ set. set ≡ merged [] (eval_accesses (fan_in_of form.now) gate)) }
{
    let mut pairs = match form {
        Form::Input => Vec::new(alloc),
        Form::Gate { fan_in, .. } => value_reads(alloc, fan_in.items())?,
        Form::Dff { source } => value_reads(alloc, &[*source])?,
    };
    pairs.push((2 * gate + 1, Access::Write))?;
    Ok(RwSet::from_pairs(pairs))
}

/// The value of each of these signals is read.
fn value_reads(alloc: Global, signals: &[u32]) -> Result<Vec<(u32, Access)>, NoRoom>
    requires { All (λ signal. signal < 4096) signals.now }
    ensures { IfOk result (λ pairs. pairs.items ≡ map (λ signal. (value_place signal, Access.Read)) signals.now) }
{
    let mut pairs = Vec::new(alloc);
    for &signal in signals {
        pairs.push((2 * signal, Access::Read))?;
    }
    Ok(pairs)
}
