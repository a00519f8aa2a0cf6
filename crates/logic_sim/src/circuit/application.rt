ghost use Rattle.std.specs.Prelude.{true, ◌≡◌, ◌==◌, ◌+◌, ◌-◌, ◌*◌, ◌^◌, ◌<◌, ◌≤◌, [], ◌∷◌, ◌++◌, All, length, map, if◌then◌else◌, IfOk, IfErr, OnOk, OnErr};
ghost use Rattle.std.specs.List.{AllByRecursion};
ghost use Rattle.app_laws.specs.Applications.{IsFitTask as IsTaskOf, IsTaken, IsEffect};
ghost use Rattle.logic_sim.specs.Bundles.{IsEffectOn, child_of, computed_from};
ghost use Rattle.logic_sim.specs.Event.{change_of, change_text, delay_of, eval_at, eval_of, next_changes, next_ticks, plan_place, tick_of, value_place};
ghost use Rattle.logic_sim.specs.Meaning.{change_set, eval_set, simulation};
ghost use Rattle.logic_sim.specs.Wiring.{fan_in_of, readers_of, signal_at};

use super::Circuit;
use super::threats::none_is_before;
use crate::cells::Cells;
use crate::event::{
    CHANGE, EVAL, MOST_BESIDE_NAME, change_start, eval_start, push_change, tick_start,
};
use crate::gate::computed_value;
use crate::horizon::Horizon;
use app_laws::{App, Child, ChildList, Effect, SetAnswer};
use cell_store::{Bundle, Store, home_laws, location_laws, return_laws, value_laws};
use kdg_text::{NoRoom, Steps, Text};
use rw_sets::{Access, RwSet};
use std::alloc::Global;
use std::sync::ledger::Ledger;
use task_order::{Body, PendingTasks, Start, Task};

impl App for Circuit {
    ghost use Rattle.logic_sim.specs.Horizon.{Tells};
    ghost use Rattle.logic_sim.specs.Safety as safety;

    type Val = u8;

    type Horizon = Horizon;

    ghost meaning = { simulation };

    ghost tells = { Tells };

    fn cells(&self) -> u32 {
        2 * self.deck.signals.items().len() as u32
    }

    #[inline(always)]
    fn sets<L: Ledger>(
        &self,
        body: &Body,
        _store: &Store<u8>,
        steps: &mut Steps<L>,
    ) -> Result<SetAnswer, NoRoom> {
        steps.tick();
        let set = if body.kind == CHANGE {
            change_set(self.alloc, body.at)?
        } else {
            self.evaluation_set(body.at)?
        };
        Ok(SetAnswer::Known(set))
    }

    ghost has_fixed_sets = { λ app. true };

    fn sets_are_fixed(&self) -> bool {
        true
    }

    fn ignores_paths(&self) -> bool {
        true
    }

    fn task_nanos(&self) -> Option<u64> {
        Some(100)
    }

    fn horizon(&self, alloc: Global) -> Result<Horizon, NoRoom> {
        Horizon::new(alloc, self.deck.signals.items().len())
    }

    fn touch(&self, horizon: &mut Horizon, body: &Body) {
        horizon.stale.put(body.at);
    }

    /// An event at the time of the earliest one is safe where none conflicts with it: what follows from
    /// an event at that time is an evaluation of what this event doesn't read, or comes later.
    fn safe<P: PendingTasks>(&self, task: &Task, pending: &P, horizon: &mut Horizon) -> bool {
        if none_is_before(task, pending) {
            return true;
        }
        self.settle(pending, horizon);
        self.is_unthreatened(task, pending, horizon)
    }

    #[inline(always)]
    fn run(&self, task: &Task, bundle: Bundle<u8>) -> Result<Effect<u8>, Bundle<u8>>
        requires fit { IsTaskOf (simulation self.now) task.now }
        requires cells { IsTaken (simulation self.now) task.now bundle }
        ensures effect { IfOk result (IsEffect (simulation self.now) task.now bundle) }
        ensures returned { IfErr result (λ back. back ≡ bundle) }
    {
        let time = task.key.prio / 2;
        let Body { kind, at, arg } = task.body;
        if kind == CHANGE {
            self.change_effect(time, at, arg as u8, bundle)
        } else if kind == EVAL {
            self.evaluation_effect(time, at, bundle)
        } else {
            self.tick_effect(time, at, bundle)
        }
    }

    fn works_at_home(&self) -> bool {
        true
    }

    #[inline(always)]
    fn run_at_home(&self, task: &Task, store: &mut Store<u8>) -> Result<(ChildList, Text), NoRoom> {
        location_laws::<u8>();
        value_laws::<u8>();
        return_laws::<u8>();
        home_laws::<u8>();
        let time = task.key.prio / 2;
        let Body { kind, at, arg } = task.body;
        if kind == CHANGE {
            self.change(time, at, arg as u8, store)
        } else if kind == EVAL {
            self.evaluate(time, at, store)
        } else {
            self.tick(time, at, store)
        }
    }

    ghost lawful = { safety.are_lawful };
}

impl Circuit {
    /// A copy of the set that the evaluation of a gate or the tick of a flip-flop declares.
    #[inline(always)]
    fn evaluation_set(&self, gate: u32) -> Result<RwSet, NoRoom>
        requires { gate < length self.now.deck.signals }
        ensures { IfOk result (λ set. set ≡ eval_set self.now.deck gate) }
    {
        self.sets[gate as usize].copy()
    }

    /// The gates that read a signal, each once, in file order.
    pub(super) fn gates_reading(&self, signal: u32) -> &[u32]
        requires { signal < length self.now.deck.signals }
        ensures all { result.now ≡ readers_of self.now.deck.signals signal }
        ensures few { length result.now ≤ 4096 }
        ensures in_range { All (λ gate. gate < length self.now.deck.signals) result.now }
    {
        self.readers[signal as usize].items()
    }

    /// The signal takes the value, unless it has it. Each gate that reads it is then evaluated at
    /// the same time.
    #[inline(always)]
    fn change<C: Cells>(
        &self,
        time: u64,
        signal: u32,
        value: u8,
        cells: &mut C,
    ) -> Result<(ChildList, Text), NoRoom>
        requires in_range { signal < length self.now.deck.signals }
        requires time { 2 * time + 1 < 2 ^ 64 }
        requires read { C.can_read cells.old (value_place signal) }
        requires written { C.can_write cells.old (value_place signal) }
        ensures cells { OnOk result (cells.new ≡ (if C.held cells.old (value_place signal) == value then cells.old else C.put_at cells.old (value_place signal) value)) }
        ensures children { IfOk result (λ made. made.0 ≡ (if C.held cells.old (value_place signal) == value then [] else map (child_of self.now) (map (eval_at time) (readers_of self.now.deck.signals signal)))) }
        ensures text { IfOk result (λ made. made.1 ≡ (if C.held cells.old (value_place signal) == value then [] else change_text self.now.deck time signal value)) }
        ensures unchanged { OnErr result (cells.new ≡ cells.old) }
    {
        let alloc = self.alloc;
        let place = 2 * signal;
        if cells.value(place) == value {
            return Ok(nothing_made(alloc));
        }
        let made = self.change_outcome(time, signal, value)?;
        cells.put(place, value);
        Ok(made)
    }

    /// A change of a signal in a bundle.
    #[inline(always)]
    fn change_effect(
        &self,
        time: u64,
        signal: u32,
        value: u8,
        bundle: Bundle<u8>,
    ) -> Result<Effect<u8>, Bundle<u8>>
        requires in_range { signal < length self.now.deck.signals }
        requires time { 2 * time + 1 < 2 ^ 64 }
        requires set { bundle.set ≡ change_set signal }
        ensures effect { IfOk result (IsEffectOn self.now (change_set signal) (change_of self.now time signal value) bundle) }
        ensures returned { IfErr result (λ back. back ≡ bundle) }
    {
        location_laws::<u8>();
        value_laws::<u8>();
        let mut bundle = bundle;
        match self.change(time, signal, value, &mut bundle) {
            Ok((children, text)) => Ok(Effect {
                bundle,
                children,
                text,
            }),
            Err(_) => Err(bundle),
        }
    }

    /// The evaluations and the line that follow a change of a signal to the value.
    #[inline(always)]
    fn change_outcome(&self, time: u64, signal: u32, value: u8) -> Result<(ChildList, Text), NoRoom>
        requires in_range { signal < length self.now.deck.signals }
        requires time { 2 * time + 1 < 2 ^ 64 }
        ensures children { IfOk result (λ made. made.0 ≡ map (child_of self.now) (map (eval_at time) (readers_of self.now.deck.signals signal))) }
        ensures text { IfOk result (λ made. made.1 ≡ change_text self.now.deck time signal value) }
    {
        let children = self.evaluations(time, signal)?;
        if !self.is_output[signal as usize] {
            return Ok((children, Text::new(self.alloc)));
        }
        let name = self.deck.signals.items()[signal as usize].name.bytes();
        // Room for the whole line at once: it would grow three times.
        let room = name.len().saturating_add(MOST_BESIDE_NAME);
        let mut text = Text::from_vec(Vec::with_capacity(self.alloc, room)?);
        push_change(&mut text, time, name, value)?;
        Ok((children, text))
    }

    /// An evaluation at that time of each gate that reads a signal.
    #[inline(always)]
    fn evaluations(&self, time: u64, signal: u32) -> Result<ChildList, NoRoom>
        requires in_range { signal < length self.now.deck.signals }
        requires time { 2 * time + 1 < 2 ^ 64 }
        ensures { IfOk result (λ children. children ≡ map (child_of self.now) (map (eval_at time) (readers_of self.now.deck.signals signal))) }
    {
        let mut children = ChildList::new(self.alloc);
        for &gate in self.gates_reading(signal) {
            let set = self.evaluation_set(gate)?;
            push_child(&mut children, eval_start(time, gate), set)?;
        }
        Ok(children)
    }

    /// Plans what the gate computes, unless it is planned. The gate then takes that value after its
    /// delay, if that is not too late.
    #[inline(always)]
    fn evaluate<C: Cells>(
        &self,
        time: u64,
        gate: u32,
        cells: &mut C,
    ) -> Result<(ChildList, Text), NoRoom>
        requires in_range { gate < length self.now.deck.signals }
        requires time { time < 2 ^ 63 }
        requires fan_in { AllByRecursion (λ signal. C.can_read cells.old (value_place signal)) (fan_in_of (signal_at self.now.deck.signals gate).form) }
        requires read { C.can_read cells.old (plan_place gate) }
        requires written { C.can_write cells.old (plan_place gate) }
        ensures cells { OnOk result (let value = computed_from (C.held cells.old) (signal_at self.now.deck.signals gate).form in cells.new ≡ (if C.held cells.old (plan_place gate) == value then cells.old else C.put_at cells.old (plan_place gate) value)) }
        ensures children { IfOk result (λ made. let value = computed_from (C.held cells.old) (signal_at self.now.deck.signals gate).form in made.0 ≡ (if C.held cells.old (plan_place gate) == value then [] else map (child_of self.now) (next_changes self.now time gate value))) }
        ensures text { IfOk result (λ made. made.1 ≡ []) }
        ensures unchanged { OnErr result (cells.new ≡ cells.old) }
    {
        let value = computed_value(&self.deck.signals.items()[gate as usize].form, &*cells);
        let place = 2 * gate + 1;
        if cells.value(place) == value {
            return Ok(nothing_made(self.alloc));
        }
        let children = self.next_change(time, gate, value)?;
        cells.put(place, value);
        Ok((children, Text::new(self.alloc)))
    }

    /// An evaluation of a gate in a bundle.
    #[inline(always)]
    fn evaluation_effect(
        &self,
        time: u64,
        gate: u32,
        bundle: Bundle<u8>,
    ) -> Result<Effect<u8>, Bundle<u8>>
        requires in_range { gate < length self.now.deck.signals }
        requires time { time < 2 ^ 63 }
        requires set { bundle.set ≡ eval_set self.now.deck gate }
        ensures effect { IfOk result (IsEffectOn self.now (eval_set self.now.deck gate) (eval_of self.now time gate) bundle) }
        ensures returned { IfErr result (λ back. back ≡ bundle) }
    {
        location_laws::<u8>();
        value_laws::<u8>();
        let mut bundle = bundle;
        match self.evaluate(time, gate, &mut bundle) {
            Ok((children, text)) => Ok(Effect {
                bundle,
                children,
                text,
            }),
            Err(_) => Err(bundle),
        }
    }

    /// Plans the value of the flip-flop's source, unless it is planned. The flip-flop then takes that
    /// value after its delay, and in any case ticks again when the clock next does, if these are not
    /// too late.
    #[inline(always)]
    fn tick<C: Cells>(
        &self,
        time: u64,
        flip_flop: u32,
        cells: &mut C,
    ) -> Result<(ChildList, Text), NoRoom>
        requires in_range { flip_flop < length self.now.deck.signals }
        requires time { time < 2 ^ 63 }
        requires fan_in { AllByRecursion (λ signal. C.can_read cells.old (value_place signal)) (fan_in_of (signal_at self.now.deck.signals flip_flop).form) }
        requires read { C.can_read cells.old (plan_place flip_flop) }
        requires written { C.can_write cells.old (plan_place flip_flop) }
        ensures cells { OnOk result (let value = computed_from (C.held cells.old) (signal_at self.now.deck.signals flip_flop).form in cells.new ≡ (if C.held cells.old (plan_place flip_flop) == value then cells.old else C.put_at cells.old (plan_place flip_flop) value)) }
        ensures children { IfOk result (λ made. let value = computed_from (C.held cells.old) (signal_at self.now.deck.signals flip_flop).form in made.0 ≡ (if C.held cells.old (plan_place flip_flop) == value then [] else map (child_of self.now) (next_changes self.now time flip_flop value)) ++ map (child_of self.now) (next_ticks self.now time flip_flop)) }
        ensures text { IfOk result (λ made. made.1 ≡ []) }
        ensures unchanged { OnErr result (cells.new ≡ cells.old) }
    {
        let value = computed_value(&self.deck.signals.items()[flip_flop as usize].form, &*cells);
        let place = 2 * flip_flop + 1;
        if cells.value(place) == value {
            let children = self.with_tick(time, flip_flop, ChildList::new(self.alloc))?;
            return Ok((children, Text::new(self.alloc)));
        }
        let children = self.next_change(time, flip_flop, value)?;
        let children = self.with_tick(time, flip_flop, children)?;
        cells.put(place, value);
        Ok((children, Text::new(self.alloc)))
    }

    /// A tick of a flip-flop in a bundle.
    #[inline(always)]
    fn tick_effect(
        &self,
        time: u64,
        flip_flop: u32,
        bundle: Bundle<u8>,
    ) -> Result<Effect<u8>, Bundle<u8>>
        requires in_range { flip_flop < length self.now.deck.signals }
        requires time { time < 2 ^ 63 }
        requires set { bundle.set ≡ eval_set self.now.deck flip_flop }
        ensures effect { IfOk result (IsEffectOn self.now (eval_set self.now.deck flip_flop) (tick_of self.now time flip_flop) bundle) }
        ensures returned { IfErr result (λ back. back ≡ bundle) }
    {
        location_laws::<u8>();
        value_laws::<u8>();
        let mut bundle = bundle;
        match self.tick(time, flip_flop, &mut bundle) {
            Ok((children, text)) => Ok(Effect {
                bundle,
                children,
                text,
            }),
            Err(_) => Err(bundle),
        }
    }

    /// The children with the next tick of a flip-flop behind them, unless that is too late.
    fn with_tick(&self, time: u64, flip_flop: u32, children: ChildList) -> Result<ChildList, NoRoom>
        requires in_range { flip_flop < length self.now.deck.signals }
        requires time { time < 2 ^ 63 }
        requires few { length children ≤ 1 }
        ensures { IfOk result (λ all. all ≡ children ++ map (child_of self.now) (next_ticks self.now time flip_flop)) }
    {
        let mut children = children;
        let tick = time + self.clock;
        if tick <= self.until {
            let set = self.evaluation_set(flip_flop)?;
            push_child(&mut children, tick_start(tick, flip_flop), set)?;
        }
        Ok(children)
    }

    /// How long after its evaluation or tick a signal takes the value that was planned for it.
    #[inline(always)]
    pub(super) fn delay(&self, signal: u32) -> u64
        requires in_range { signal < length self.now.deck.signals }
        ensures delay { result ≡ delay_of self.now signal }
        ensures short { result ≤ 1000000 }
    {
        u64::from(self.deck.delays.items()[signal as usize])
    }

    /// The change of a gate's signal after its delay, unless that is too late.
    #[inline(always)]
    fn next_change(&self, time: u64, gate: u32, value: u8) -> Result<ChildList, NoRoom>
        requires in_range { gate < length self.now.deck.signals }
        requires time { time < 2 ^ 63 }
        ensures { IfOk result (λ children. children ≡ map (child_of self.now) (next_changes self.now time gate value)) }
    {
        let mut children = ChildList::new(self.alloc);
        let next = time + self.delay(gate);
        if next <= self.until {
            let set = change_set(self.alloc, gate)?;
            let start = change_start(next, gate, u64::from(value));
            push_child(&mut children, start, set)?;
        }
        Ok(children)
    }
}

/// The set of a change of a signal.
#[inline(always)]
fn change_set(alloc: Global, signal: u32) -> Result<RwSet, NoRoom>
    requires { signal < 2 ^ 31 }
    ensures { IfOk result (λ set. set ≡ change_set signal) }
{
    let mut set = RwSet::new(alloc);
    set.add(2 * signal, Access::Write)?;
    Ok(set)
}

/// Adds a child with the set that it declares.
#[inline(always)]
fn push_child(children: &mut ChildList, start: Start, set: RwSet) -> Result<(), NoRoom>
    requires { length children.old < 2 ^ 32 - 1 }
    ensures { OnOk result (children.new ≡ children.old ++ record { prio = start.prio; body = start.body; set = set } ∷ []) }
{
    let Start { prio, body } = start;
    children.push(Child { prio, body, set }).map_err(|_| NoRoom)
}

/// What an event makes that has nothing to do.
#[inline(always)]
fn nothing_made(alloc: Global) -> (ChildList, Text)
    ensures children { result.0 ≡ [] }
    ensures text { result.1 ≡ [] }
{
    (ChildList::new(alloc), Text::new(alloc))
}
