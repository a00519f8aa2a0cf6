ghost use Rattle.std.specs.Prelude.{◌≡◌, ◌≤◌, ◌∷◌, ◌++◌, [], None, map, IfErr, OnOk, OnErr};
ghost use Rattle.kdg_text.specs.Faults.{StopsAt};
ghost use Rattle.bench_reader.specs.Decks.{signal_names, gate_names, is_among, delay_given, double_fault, own_limit, count_limit, early_fault};
ghost use Rattle.bench_reader.specs.Outlines.{IsTotal, number_of, totals_with};
ghost use Rattle.bench_reader.specs.Statements.{line_form, numbered_form};

use crate::faults::{DOUBLE, beyond};
use crate::index::Index;
use crate::statement::{NumberedStatement, Said, Statement};
use kdg_text::{LineFault, NoRoom, ReadFail};
use std::alloc::Global;
use std::marker::Model;

const MOST_SIGNALS: u32 = 4096;

const MOST_STIMULI: u32 = 65536;

/// How many of each the lines have.
#[derive(Clone, Copy)]
pub(crate) struct Totals {
    pub(crate) signals: u32,
    pub(crate) inputs: u32,
    pub(crate) stimuli: u32,
}

/// What the lines so far say together. None of them has a fault by itself or beside earlier ones.
#[derive(Drop)]
pub(crate) struct Outline<'a> {
    lines: Vec<NumberedStatement<'a>>,
    index: Index<'a>,
    totals: Totals,
}

impl<'a> Model for Outline<'a> {
    ghost use Rattle.std.specs.Prelude.{List, map};
    ghost use Rattle.kdg_text.specs.Faults.{Numbered};
    ghost use Rattle.bench_reader.specs.LineForms.{LineForm};
    ghost use Rattle.bench_reader.specs.Outlines.{IsIndexed};
    ghost use Rattle.bench_reader.specs.Statements.{numbered_form};

    ghost Value = { List (Numbered LineForm) };

    ghost view = { λ o. map numbered_form o.lines.items };

    ghost invariant = { λ o. IsIndexed o.index o.totals (map numbered_form o.lines.items) };
}

impl<'a> Outline<'a> {
    pub(crate) fn new(alloc: Global) -> Outline<'a>
        ensures { result ≡ [] }
    {
        Outline {
            lines: Vec::new(alloc),
            index: Index::new(alloc),
            totals: Totals {
                signals: 0,
                inputs: 0,
                stimuli: 0,
            },
        }
    }

    /// Adds what one more line says, unless that is wrong beside the lines before it.
    pub(crate) fn add(&mut self, number: u64, said: Said<'a>) -> Result<(), ReadFail>
        requires { said.limit ≡ own_limit (line_form said.statement) }
        ensures fits { OnOk result (early_fault self.old (line_form said.entry.statement) ≡ None) }
        ensures added { OnOk result (self.new ≡ self.old ++ record { number = number; form = line_form said.entry.statement } ∷ []) }
        ensures refused { IfErr result (StopsAt number (early_fault self.old (line_form said.entry.statement))) }
    {
        if let Some(fault) = self.early_fault(&said) {
            return Err(ReadFail::Bad(fault.on_line(number)));
        }
        let statement = said.statement;
        self.keep(NumberedStatement { number, statement })?;
        Ok(())
    }

    /// What is wrong with a line beside those before it.
    fn early_fault(&self, said: &Said<'a>) -> Option<LineFault>
        requires { said.now.limit ≡ own_limit (line_form said.now.statement) }
        ensures { result ≡ early_fault self.now (line_form said.now.statement) }
    {
        self.double_fault(&said.statement)
            .or(said.limit)
            .or(self.count_limit(&said.statement))
    }

    fn double_fault(&self, statement: &Statement<'a>) -> Option<LineFault>
        ensures { result ≡ double_fault self.now (line_form statement.now) }
    {
        let is_double = match statement {
            Statement::Input(name) => self.number_of(name).is_some(),
            Statement::Gate(gate) => self.number_of(gate.name).is_some(),
            Statement::FlipFlop(flip_flop) => self.number_of(flip_flop.name).is_some(),
            Statement::Delay(delay) => self.delay_of(delay.name).is_some(),
            Statement::Output(_) | Statement::Stimulus(_) => false,
        };
        if is_double { Some(DOUBLE) } else { None }
    }

    fn count_limit(&self, statement: &Statement<'a>) -> Option<LineFault>
        ensures { result ≡ count_limit self.now (line_form statement.now) }
    {
        match statement {
            Statement::Input(_) | Statement::Gate(_) | Statement::FlipFlop(_)
                if self.totals.signals >= MOST_SIGNALS => { Some(beyond(u64::from(MOST_SIGNALS))) }
            Statement::Stimulus(_) if self.totals.stimuli >= MOST_STIMULI => {
                Some(beyond(u64::from(MOST_STIMULI)))
            }
            _ => None,
        }
    }

    /// Keeps what a line says that is right.
    fn keep(&mut self, line: NumberedStatement<'a>) -> Result<(), NoRoom>
        requires { early_fault self.old (line_form line.statement) ≡ None }
        ensures ok { OnOk result (self.new ≡ self.old ++ numbered_form line.entry ∷ []) }
        ensures err { OnErr result (self.new ≡ self.old) }
    {
        self.lines.reserve(1)?;
        self.index.add(&line.statement, self.totals.signals)?;
        self.totals = self.totals.with(&line.statement);
        self.lines.push_reserved(line);
        Ok(())
    }

    /// The lines so far.
    pub(crate) fn lines(&self) -> &[NumberedStatement<'a>]
        ensures { map numbered_form result.now ≡ self.now }
    {
        &self.lines
    }

    /// How many of each the lines have.
    pub(crate) fn totals(&self) -> Totals
        ensures { IsTotal result self.now }
    {
        self.totals
    }

    /// The number of a signal.
    pub(crate) fn number_of(&self, name: &[u8]) -> Option<u32>
        ensures { result ≡ number_of (signal_names self.now) name.now }
    {
        self.index.number_of(name)
    }

    /// Whether a name is that of a gate or a flip-flop.
    pub(crate) fn is_gate(&self, name: &[u8]) -> bool
        ensures { result ≡ is_among (gate_names self.now) name.now }
    {
        self.index.is_gate(name)
    }

    /// The delay that a line gives a name.
    pub(crate) fn delay_of(&self, name: &[u8]) -> Option<u32>
        ensures { result ≡ delay_given self.now name.now }
    {
        self.index.delay_of(name)
    }
}

impl Totals {
    /// With one more line.
    fn with(self, statement: &Statement) -> Totals
        requires signals { self.signals ≤ 4096 }
        requires inputs { self.inputs ≤ 4096 }
        requires stimuli { self.stimuli ≤ 65536 }
        ensures { result ≡ totals_with self (line_form statement.now) }
    {
        match statement {
            Statement::Input(_) => Totals {
                signals: self.signals + 1,
                inputs: self.inputs + 1,
                stimuli: self.stimuli,
            },
            Statement::Gate(_) | Statement::FlipFlop(_) => Totals {
                signals: self.signals + 1,
                inputs: self.inputs,
                stimuli: self.stimuli,
            },
            Statement::Stimulus(_) => Totals {
                signals: self.signals,
                inputs: self.inputs,
                stimuli: self.stimuli + 1,
            },
            Statement::Output(_) | Statement::Delay(_) => self,
        }
    }
}
