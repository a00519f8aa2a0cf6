ghost use Rattle.std.specs.Prelude.{◌≡◌, ◌<◌, ◌-◌, ◌++◌, [], ◌∷◌, None, length, map, drop, unwrap_or, IfOk, IfErr, OnOk};
ghost use Rattle.kdg_text.specs.Faults.{Answers, StopsAt, fault_on};
ghost use Rattle.kdg_text.specs.declared.fault.ReadFail.TheVariants.{Bad};
ghost use Rattle.kdg_text.specs.Tokens.{tokens_of};
ghost use Rattle.bench_reader.specs.Decks.{delay_given, late_fault, signal_names, usual_delay};
ghost use Rattle.bench_reader.specs.Faults.{undefined};
ghost use Rattle.bench_reader.specs.Grammar.{deck_of_lines};
ghost use Rattle.bench_reader.specs.LineForms.{GateLine, FlipFlopLine, OutputLine, StimulusLine, marks};
ghost use Rattle.bench_reader.specs.Outlines.{IsMarked, Makes, deck_plus, numbers_of, with_first};
ghost use Rattle.bench_reader.specs.Statements.{fan_in_of, line_form};

use crate::faults::{BIT_COUNT, UNDEFINED};
use crate::outline::Outline;
use crate::statement::{FlipFlopDraft, GateDraft, NumberedStatement, Statement, StimDraft};
use crate::words::MARKS;
use crate::{Deck, Form, Signal, SignalList, Stim, StimList};
use kdg_text::{LineFault, NoRoom, NumList, ReadFail, Text, Tokens};
use std::alloc::Global;

/// The delay of a gate to which no line gives one.
const USUAL_DELAY: u32 = 1;

/// A deck that is being made, line by line.
#[derive(Drop)]
pub(crate) struct Making {
    pub(crate) deck: Deck,
    /// For each signal whether it is among the outputs.
    pub(crate) declared: Vec<bool>,
}

impl<'a> Outline<'a> {
    /// The deck, once each line has been added, or the first late fault.
    pub(crate) fn deck(&self, alloc: Global) -> Result<Deck, ReadFail>
        ensures { Answers result (deck_of_lines self.now) }
    {
        let mut making = Making::new(alloc, self.totals().signals)?;
        for line in self.lines() {
            self.make(alloc, &mut making, line)?;
        }
        Ok(making.deck)
    }

    /// Makes the part of the deck that a line describes.
    fn make(
        &self,
        alloc: Global,
        making: &mut Making,
        line: &NumberedStatement<'a>,
    ) -> Result<(), ReadFail>
        requires marked { IsMarked (length (signal_names self.now)) making.old }
        ensures fits { OnOk result (late_fault self.now (line_form line.now.statement) ≡ None) }
        ensures made { OnOk result (making.new.deck ≡ deck_plus self.now making.old.deck (line_form line.now.statement)) }
        ensures marked { OnOk result (IsMarked (length (signal_names self.now)) making.new) }
        ensures refused { IfErr result (StopsAt line.now.number (late_fault self.now (line_form line.now.statement))) }
    {
        let number = line.number;
        match &line.statement {
            Statement::Input(name) => Ok(making.add_signal(alloc, name, Form::Input, 0)?),
            Statement::Gate(gate) => self.make_gate(alloc, making, gate, number),
            Statement::FlipFlop(flip_flop) => self.make_flip_flop(alloc, making, flip_flop, number),
            Statement::Output(name) => self.make_output(making, name, number),
            Statement::Delay(delay) if self.is_gate(delay.name) => Ok(()),
            Statement::Delay(_) => Err(undefined_on(number)),
            Statement::Stimulus(stimulus) => self.make_stimulus(alloc, making, stimulus, number),
        }
    }

    /// Makes the signal that a gate drives, by its line of that number.
    fn make_gate(
        &self,
        alloc: Global,
        making: &mut Making,
        gate: &GateDraft<'a>,
        number: u64,
    ) -> Result<(), ReadFail>
        requires { IsMarked (length (signal_names self.now)) making.old }
        ensures { Makes self.now number (GateLine gate.now.name.now gate.now.kind (fan_in_of gate.now.line.now)) making.old making.new result }
    {
        let fan_in = self.fan_in_of(alloc, gate)?.ok_or(undefined_on(number))?;
        let kind = gate.kind;
        let delay = self.gate_delay(gate.name);
        making.add_signal(alloc, gate.name, Form::Gate { kind, fan_in }, delay)?;
        Ok(())
    }

    /// Makes the signal that a flip-flop drives, by its line of that number.
    fn make_flip_flop(
        &self,
        alloc: Global,
        making: &mut Making,
        flip_flop: &FlipFlopDraft<'a>,
        number: u64,
    ) -> Result<(), ReadFail>
        requires { IsMarked (length (signal_names self.now)) making.old }
        ensures { Makes self.now number (FlipFlopLine flip_flop.now.name.now flip_flop.now.source.now) making.old making.new result }
    {
        let source = self
            .number_of(flip_flop.source)
            .ok_or(undefined_on(number))?;
        let delay = self.gate_delay(flip_flop.name);
        making.add_signal(alloc, flip_flop.name, Form::Dff { source }, delay)?;
        Ok(())
    }

    /// Makes an output, by its line of that number.
    fn make_output(&self, making: &mut Making, name: &[u8], number: u64) -> Result<(), ReadFail>
        requires { IsMarked (length (signal_names self.now)) making.old }
        ensures { Makes self.now number (OutputLine name.now) making.old making.new result }
    {
        let output = self.number_of(name).ok_or(undefined_on(number))?;
        making.declare(output)?;
        Ok(())
    }

    /// Makes a stimulus, by its line of that number.
    fn make_stimulus(
        &self,
        alloc: Global,
        making: &mut Making,
        stimulus: &StimDraft<'a>,
        number: u64,
    ) -> Result<(), ReadFail>
        requires { IsMarked (length (signal_names self.now)) making.old }
        ensures { Makes self.now number (StimulusLine stimulus.now.time stimulus.now.bits.now) making.old making.new result }
    {
        if stimulus.bits.len() != self.totals().inputs as usize {
            return Err(ReadFail::Bad(BIT_COUNT.on_line(number)));
        }
        making.add_stimulus(alloc, stimulus)?;
        Ok(())
    }

    /// The delay of a gate or a flip-flop.
    fn gate_delay(&self, name: &[u8]) -> u32
        ensures { result ≡ unwrap_or (delay_given self.now name.now) usual_delay }
    {
        self.delay_of(name).unwrap_or(USUAL_DELAY)
    }

    /// The numbers of a gate's fan-ins, where each is a signal.
    fn fan_in_of(&self, alloc: Global, gate: &GateDraft<'a>) -> Result<Option<NumList>, NoRoom>
        ensures { IfOk result (λ numbers. numbers ≡ numbers_of (signal_names self.now) (fan_in_of gate.now.line.now)) }
    {
        let mut numbers = NumList::new(alloc);
        let mut names = names_behind(gate.line);
        while let Some(name) = names.next_token() {
            match self.number_of(name) {
                Some(number) => numbers.push(number)?,
                None => return Ok(None),
            }
            let _mark = names.next_token();
        }
        Ok(Some(numbers))
    }
}

/// What is wrong with a line of that number that uses a name which no line defines for that use.
fn undefined_on(number: u64) -> ReadFail
    ensures { result ≡ Bad (fault_on number undefined) }
{
    ReadFail::Bad(UNDEFINED.on_line(number))
}

/// The tokens of a gate's line behind `NAME = WORD (`.
fn names_behind(line: &[u8]) -> Tokens
    ensures { result ≡ drop 4 (tokens_of marks line.now) }
{
    let mut tokens = Tokens::new(line, MARKS);
    for skipped in 0..4usize {
        let _token = tokens.next_token();
    }
    tokens
}

impl Making {
    /// An empty deck of `signals` signals.
    fn new(alloc: Global, signals: u32) -> Result<Making, NoRoom>
        ensures deck { IfOk result (λ making. making.deck ≡ record { signals = []; outputs = []; stimuli = []; delays = [] }) }
        ensures marked { IfOk result (IsMarked signals) }
    {
        Ok(Making {
            deck: Deck {
                signals: SignalList::new(alloc),
                outputs: NumList::new(alloc),
                stimuli: StimList::new(alloc),
                delays: NumList::new(alloc),
            },
            declared: vec![in alloc; false; signals as usize]?,
        })
    }

    fn add_signal(
        &mut self,
        alloc: Global,
        name: &[u8],
        form: Form,
        delay: u32,
    ) -> Result<(), NoRoom>
        ensures { OnOk result (self.new ≡ record self.old { deck = record self.old.deck { signals = self.old.deck.signals ++ record { name = name.now; form = form } ∷ []; delays = self.old.deck.delays ++ delay ∷ [] } }) }
    {
        let mut text = Text::new(alloc);
        text.push_all(name)?;
        self.deck.delays.push(delay)?;
        self.deck.signals.push(Signal { name: text, form })
    }

    /// Adds an output, unless it is there.
    fn declare(&mut self, number: u32) -> Result<(), NoRoom>
        requires marked { IsMarked (length self.old.declared.items) self.old }
        requires within { number < length self.old.declared.items }
        ensures deck { OnOk result (self.new.deck ≡ record self.old.deck { outputs = with_first self.old.deck.outputs number }) }
        ensures marked { OnOk result (IsMarked (length self.old.declared.items) self.new) }
    {
        if !self.declared[number as usize] {
            self.deck.outputs.push(number)?;
            self.declared[number as usize] = true;
        }
        Ok(())
    }

    fn add_stimulus(&mut self, alloc: Global, stimulus: &StimDraft) -> Result<(), NoRoom>
        ensures { OnOk result (self.new ≡ record self.old { deck = record self.old.deck { stimuli = self.old.deck.stimuli ++ record { time = stimulus.now.time; bits = map (λ byte. byte - 48) stimulus.now.bits.now } ∷ [] } }) }
    {
        let bits = bits_of(alloc, stimulus.bits)?;
        self.deck.stimuli.push(Stim {
            time: stimulus.time,
            bits,
        })
    }
}

/// The numbers that zeros and ones stand for.
fn bits_of(alloc: Global, bits: &[u8]) -> Result<NumList, NoRoom>
    ensures { IfOk result (λ numbers. numbers ≡ map (λ byte. byte - 48) bits.now) }
{
    let numbers = bits.iter().map(|byte| u32::from(byte.saturating_sub(b'0')));
    Ok(NumList::from_vec(numbers.collect(alloc)?))
}
