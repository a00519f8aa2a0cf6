ghost use Rattle.std.specs.Prelude.{◌≡◌, [], OnErr, OnOk};
ghost use Rattle.std.specs.BTreeMap.{IsUnchanged};
ghost use Rattle.bench_reader.specs.Outlines.{Indexes, IsIndex, Puts, found, is_gate_in, number_in};
ghost use Rattle.bench_reader.specs.Statements.{line_form};

use crate::statement::Statement;
use kdg_text::NoRoom;
use std::alloc::Global;
use std::collections::BTreeMap;

/// What is known of a name that a line defines.
#[derive(Clone, Copy)]
pub(crate) struct Definition {
    pub(crate) number: u32,
    /// Whether a gate or a flip-flop has the name, and no input.
    pub(crate) is_gate: bool,
}

/// What the lines so far say of each name.
#[derive(Drop)]
pub(crate) struct Index<'a> {
    definitions: BTreeMap<&'a [u8], Definition>,
    /// The delay of each name to which a line gives one.
    delays: BTreeMap<&'a [u8], u32>,
}

impl<'a> Index<'a> {
    pub(crate) fn new(alloc: Global) -> Index<'a>
        ensures { IsIndex result [] }
    {
        Index {
            definitions: BTreeMap::new(alloc),
            delays: BTreeMap::new(alloc),
        }
    }

    /// The number of a name that a line defines.
    pub(crate) fn number_of(&self, name: &[u8]) -> Option<u32>
        ensures { result ≡ number_in self.now.definitions name.now }
    {
        Some(self.definitions.get(name)?.number)
    }

    /// Whether a line defines the name as a gate or a flip-flop.
    pub(crate) fn is_gate(&self, name: &[u8]) -> bool
        ensures { result ≡ is_gate_in self.now.definitions name.now }
    {
        match self.definitions.get(name) {
            Some(definition) => definition.is_gate,
            None => false,
        }
    }

    /// The delay that a line gives the name.
    pub(crate) fn delay_of(&self, name: &[u8]) -> Option<u32>
        ensures { result ≡ found self.now.delays name.now }
    {
        self.delays.get(name).copied()
    }

    /// Adds what a line says of its name, which has that number where the line defines it.
    pub(crate) fn add(&mut self, statement: &Statement<'a>, number: u32) -> Result<(), NoRoom>
        ensures ok { OnOk result (Indexes self.old number (line_form statement.now) self.new) }
        ensures err { OnErr result (IsUnchanged self.old.definitions self.new.definitions × IsUnchanged self.old.delays self.new.delays) }
    {
        match statement {
            Statement::Input(name) => self.define(name, number, false),
            Statement::Gate(gate) => self.define(gate.name, number, true),
            Statement::FlipFlop(flip_flop) => self.define(flip_flop.name, number, true),
            Statement::Delay(delay) => self.slow(delay.name, delay.delay),
            Statement::Output(_) | Statement::Stimulus(_) => Ok(()),
        }
    }

    fn define(&mut self, name: &'a [u8], number: u32, is_gate: bool) -> Result<(), NoRoom>
        ensures ok { OnOk result (Puts self.old.definitions name.now (record { number = number; is_gate = is_gate }) self.new.definitions) }
        ensures err { OnErr result (IsUnchanged self.old.definitions self.new.definitions) }
        ensures delays { self.new.delays ≡ self.old.delays }
    {
        self.definitions
            .insert(name, Definition { number, is_gate })?;
        Ok(())
    }

    fn slow(&mut self, name: &'a [u8], delay: u32) -> Result<(), NoRoom>
        ensures ok { OnOk result (Puts self.old.delays name.now delay self.new.delays) }
        ensures err { OnErr result (IsUnchanged self.old.delays self.new.delays) }
        ensures definitions { self.new.definitions ≡ self.old.definitions }
    {
        self.delays.insert(name, delay)?;
        Ok(())
    }
}
