//! Reads circuits in the `.bench` format, in which the ISCAS'85 and ISCAS'89 benchmark circuits are
//! handed round.
#![tactic(auto)]

mod deck;
mod faults;
mod index;
mod making;
mod names;
mod outline;
mod reader;
mod statement;
mod words;

pub use deck::{Deck, Form, GateKind, Signal, SignalList, Stim, StimList};
pub use reader::read_deck;
