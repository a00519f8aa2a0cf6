ghost use Rattle.std.specs.Prelude.{◌≡◌, [], ◌∷◌, ◌++◌, OnOk, OnErr};

use kdg_text::{NoRoom, NumList, Text};
use std::alloc::Global;
use std::marker::Model;

/// What a gate computes from its fan-ins.
#[derive(Clone, Copy, Debug, PartialEq, Eq)]
pub enum GateKind {
    /// 1 where all fan-ins are 1.
    And,
    /// 0 where all fan-ins are 1.
    Nand,
    /// 1 where some fan-in is 1.
    Or,
    /// 0 where some fan-in is 1.
    Nor,
    /// 1 where the number of fan-ins that are 1 is odd.
    Xor,
    /// 0 where the number of fan-ins that are 1 is odd.
    Xnor,
    /// The other value of its one fan-in.
    Not,
    /// The value of its one fan-in.
    Buff,
}

/// What drives a signal.
#[derive(Drop)]
pub enum Form {
    /// A primary input of the circuit.
    Input,
    /// A gate, with the numbers of the signals that it reads, in the order of its line.
    Gate { kind: GateKind, fan_in: NumList },
    /// A flip-flop, with the number of the signal whose value it takes at each tick of the clock.
    Dff { source: u32 },
}

/// A signal: its name as the deck spells it, and what drives it.
#[derive(Drop)]
pub struct Signal {
    pub name: Text,
    pub form: Form,
}

/// A list of signals.
#[derive(Drop)]
pub struct SignalList {
    signals: Vec<Signal>,
}

impl Model for SignalList {
    ghost use Rattle.std.specs.Prelude.{List};
    ghost use Rattle.bench_reader.specs.declared.deck.Signal.{Signal};

    ghost Value = { List Signal };

    ghost view = { λ l. l.signals.items };
}

impl SignalList {
    /// An empty list, which takes no memory.
    pub fn new(alloc: Global) -> SignalList
        ensures { result ≡ [] }
    {
        SignalList {
            signals: Vec::new(alloc),
        }
    }

    /// Adds a signal at the end. After `NoRoom` the list is as it was.
    pub fn push(&mut self, signal: Signal) -> Result<(), NoRoom>
        ensures ok { OnOk result (self.new ≡ self.old ++ signal ∷ []) }
        ensures err { OnErr result (self.new ≡ self.old) }
    {
        self.signals.push(signal)?;
        Ok(())
    }

    /// The signals, in order.
    pub fn items(&self) -> &[Signal]
        ensures { result.now ≡ self.now }
    {
        &self.signals
    }
}

/// New values of the primary inputs at one time.
#[derive(Drop)]
pub struct Stim {
    /// When they come, in units of time from 0 to 1,000,000,000.
    pub time: u64,
    /// One value, 0 or 1, for each primary input in the order in which they are declared.
    pub bits: NumList,
}

/// A list of stimuli.
#[derive(Drop)]
pub struct StimList {
    stimuli: Vec<Stim>,
}

impl Model for StimList {
    ghost use Rattle.std.specs.Prelude.{List};
    ghost use Rattle.bench_reader.specs.declared.deck.Stim.{Stim};

    ghost Value = { List Stim };

    ghost view = { λ l. l.stimuli.items };
}

impl StimList {
    /// An empty list, which takes no memory.
    pub fn new(alloc: Global) -> StimList
        ensures { result ≡ [] }
    {
        StimList {
            stimuli: Vec::new(alloc),
        }
    }

    /// Adds a stimulus at the end. After `NoRoom` the list is as it was.
    pub fn push(&mut self, stimulus: Stim) -> Result<(), NoRoom>
        ensures ok { OnOk result (self.new ≡ self.old ++ stimulus ∷ []) }
        ensures err { OnErr result (self.new ≡ self.old) }
    {
        self.stimuli.push(stimulus)?;
        Ok(())
    }

    /// The stimuli, in order.
    pub fn items(&self) -> &[Stim]
        ensures { result.now ≡ self.now }
    {
        &self.stimuli
    }
}

/// A circuit as its deck describes it.
#[derive(Drop)]
pub struct Deck {
    /// The signals, numbered from 0 in the order of the lines that define them.
    pub signals: SignalList,
    /// The numbers of the signals that are outputs, in the order in which they are first declared.
    pub outputs: NumList,
    /// The stimuli, in the order of their lines.
    pub stimuli: StimList,
    /// For each signal its delay in units of time, from 1 to 1,000,000, or 0 for an input.
    pub delays: NumList,
}
