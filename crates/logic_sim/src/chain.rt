ghost use Rattle.std.specs.Prelude.{◌≡◌, ◌≤◌, ◌<◌, IfOk};
ghost use Rattle.bench_reader.specs.Decks.{IsSoundlyWired};
ghost use Rattle.logic_sim.specs.Chain.{chain_delays, chain_input, generated_input, inverter_of, most_inverters};

use bench_reader::{Deck, Form, GateKind, Signal, SignalList, StimList};
use kdg_text::{NoRoom, NumList, Text, push_u64};
use std::alloc::Global;

/// A deck of `n` inverters in a row, from 1 to 999. The first gate inverts the input `a`, each
/// other gate the one before it, and the last is the output. No stimulus changes the input.
pub fn chain_deck(alloc: Global, n: u32) -> Result<Deck, NoRoom>
    requires some { 1 ≤ n }
    requires few { n ≤ most_inverters }
    ensures deck { IfOk result (λ deck. deck ≡ generated_input n) }
    ensures sound { IfOk result IsSoundlyWired }
{
    let mut signals = SignalList::new(alloc);
    signals.push(chain_input(alloc)?)?;
    for before in 0..n {
        signals.push(inverter(alloc, before)?)?;
    }
    let mut outputs = NumList::new(alloc);
    outputs.push(n)?;
    let delays = chain_delays(alloc, n)?;
    Ok(Deck {
        signals,
        outputs,
        stimuli: StimList::new(alloc),
        delays,
    })
}

/// The input has no delay, and each of the gates the delay 1.
fn chain_delays(alloc: Global, n: u32) -> Result<NumList, NoRoom>
    requires { n ≤ most_inverters }
    ensures { IfOk result (λ delays. delays ≡ chain_delays n) }
{
    let mut delays = vec![in alloc; 1; n as usize + 1]?;
    delays[0] = 0;
    Ok(NumList::from_vec(delays))
}

/// The input that drives the first gate.
fn chain_input(alloc: Global) -> Result<Signal, NoRoom>
    ensures { IfOk result (λ signal. signal ≡ chain_input) }
{
    let mut name = Text::new(alloc);
    name.push_all(b"a")?;
    let form = Form::Input;
    Ok(Signal { name, form })
}

/// The gate that inverts the signal with that number.
fn inverter(alloc: Global, before: u32) -> Result<Signal, NoRoom>
    requires { before < most_inverters }
    ensures { IfOk result (λ signal. signal ≡ inverter_of before) }
{
    let mut name = Text::new(alloc);
    name.push_all(b"g")?;
    push_u64(&mut name, u64::from(before) + 1)?;
    let mut fan_in = NumList::new(alloc);
    fan_in.push(before)?;
    let kind = GateKind::Not;
    let form = Form::Gate { kind, fan_in };
    Ok(Signal { name, form })
}
