ghost use Rattle.std.specs.Prelude.{◌≡◌, ◌^◌, ◌<◌, ◌≤◌, length, slice_index, IfOk};
ghost use Rattle.bench_reader.specs.Decks.{IsSoundlyWired};
ghost use Rattle.cell_store.specs.Values.{AreAllHome, values_of};
ghost use Rattle.app_laws.specs.Laws.{AllFit};
ghost use Rattle.logic_sim.specs.Circuit.{IsFitCells, IsFitTask, finals_of, first_ticks, latest, longest_clock, start_cells, start_tasks};

use crate::event::{change_count, first_evals, push_final, push_first_ticks, push_stimuli};
use crate::tables::{
    evaluation_sets, flip_flop_numbers, input_numbers, output_marks, reader_lists,
};
use bench_reader::Deck;
use cell_store::{Seen, Store, value_laws};
use kdg_text::{NoRoom, NumList, Text};
use rw_sets::RwSet;
use std::alloc::Global;
use std::marker::Model;
use task_order::StartList;

mod application;
mod settling;
mod threats;

/// A circuit that is simulated up to a time. Signal `s` has its value in cell `2s`, and the value
/// that is planned for it in cell `2s + 1`.
#[derive(Drop)]
pub struct Circuit {
    alloc: Global,
    deck: Deck,
    until: u64,
    /// The time between two ticks of the flip-flops.
    clock: u64,
    /// The primary inputs, in the order in which they are declared.
    inputs: NumList,
    /// The flip-flops, in file order.
    flip_flops: NumList,
    /// For each signal, the gates that read it, in file order.
    readers: Vec<NumList>,
    /// For each signal, whether it is an output.
    is_output: Vec<bool>,
    /// For each signal, the set that its evaluation or tick declares.
    sets: Vec<RwSet>,
}

impl Model for Circuit {
    ghost use Rattle.logic_sim.specs.Event.{Simulation};
    ghost use Rattle.logic_sim.specs.Tables.{IsPrepared};

    ghost Value = { Simulation };

    ghost view = { λ c. record { deck = c.deck; until = c.until; clock = c.clock } };

    ghost invariant = { λ c. IsPrepared c.deck c.until c.clock c.inputs c.flip_flops c.readers.items c.is_output.items c.sets.items };
}

impl Circuit {
    /// The circuit of a deck, in which nothing happens after the time `until`, and the flip-flops tick
    /// each time that `clock` units of time have gone by.
    pub fn new(alloc: Global, deck: Deck, until: u64, clock: u64) -> Result<Circuit, NoRoom>
        requires deck { IsSoundlyWired deck }
        requires until { until ≤ latest }
        requires some_time { 1 ≤ clock }
        requires clock { clock ≤ longest_clock }
        ensures { IfOk result (λ circuit. circuit ≡ record { deck = deck; until = until; clock = clock }) }
    {
        let signals = deck.signals.items();
        let inputs = input_numbers(alloc, signals)?;
        let flip_flops = flip_flop_numbers(alloc, signals)?;
        let readers = reader_lists(alloc, signals)?;
        let is_output = output_marks(alloc, deck.outputs.items(), signals.len())?;
        let sets = evaluation_sets(alloc, signals)?;
        Ok(Circuit {
            alloc,
            deck,
            until,
            clock,
            inputs,
            flip_flops,
            readers,
            is_output,
            sets,
        })
    }

    /// The cells at the start: every value and every plan is 0.
    pub fn first_cells(&self) -> Result<Vec<u8>, NoRoom>
        ensures cells { IfOk result (λ cells. cells.items ≡ start_cells self.now.deck) }
        ensures fit { IfOk result (λ cells. IsFitCells self.now cells.items) }
    {
        Ok(vec![in self.alloc; 0; 2 * self.deck.signals.items().len()]?)
    }

    /// How many first tasks there are, which is told without making them.
    pub fn first_task_count(&self) -> u64
        ensures { result ≡ length (start_tasks self.now) }
    {
        let inputs = self.inputs.items();
        let others = self.flip_flops.items().len() + inputs.len();
        let gates = self.deck.signals.items().len() - others;
        let changes = change_count(self.until, inputs, self.deck.stimuli.items());
        (gates + (self.first_tick_count() + changes)) as u64
    }

    /// How many flip-flops tick at all.
    fn first_tick_count(&self) -> usize
        ensures { result ≡ length (first_ticks self.now) }
    {
        if self.until < self.clock {
            return 0;
        }
        self.flip_flops.items().len()
    }

    /// The first tasks: each gate is evaluated at time 0, each flip-flop ticks at the time of the
    /// clock, and each primary input takes the values of the stimuli, where these come no later than
    /// `until`.
    pub fn first_tasks(&self) -> Result<StartList, NoRoom>
        ensures tasks { IfOk result (λ tasks. tasks ≡ start_tasks self.now) }
        ensures fit { IfOk result (AllFit (IsFitTask self.now)) }
        ensures few { IfOk result (λ tasks. length tasks < 2 ^ 32) }
    {
        let mut starts = first_evals(self.alloc, self.deck.signals.items())?;
        let flip_flops = self.flip_flops.items();
        push_first_ticks(&mut starts, self.until, self.clock, flip_flops)?;
        let stimuli = self.deck.stimuli.items();
        push_stimuli(&mut starts, self.until, self.inputs.items(), stimuli)?;
        Ok(starts)
    }

    /// A line `final NAME VALUE` for each output, in the order in which they are declared, of cells
    /// that are all home.
    pub fn print_finals(&self, store: &Store<u8>) -> Result<Text, NoRoom>
        requires home { AreAllHome store.now }
        requires cells { IsFitCells self.now (values_of store.now) }
        ensures { IfOk result (λ text. text ≡ finals_of self.now.deck (values_of store.now)) }
    {
        let signals = self.deck.signals.items();
        let mut text = Text::new(self.alloc);
        for &output in self.deck.outputs.items() {
            let name = signals[output as usize].name.bytes();
            push_final(&mut text, name, value_at(store, 2 * output))?;
        }
        Ok(text)
    }
}

/// The value of a cell, where all cells are home.
fn value_at(store: &Store<u8>, loc: u32) -> u8
    requires home { AreAllHome store.now }
    requires in_range { loc < length (values_of store.now) }
    ensures { result ≡ slice_index (values_of store.now) loc }
{
    value_laws::<u8>();
    match store.peek(loc) {
        Seen::At(value) => *value,
        Seen::Out => unreachable!(),
    }
}
