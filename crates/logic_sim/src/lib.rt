//! Logic circuits as ordered applications. A task changes a signal, evaluates a gate or has a flip-flop
//! tick, and each gate and flip-flop has a delay of its own.
#![tactic(auto)]

mod cells;
mod chain;
mod circuit;
mod event;
mod gate;
mod horizon;
mod laws;
mod signal_queue;
mod tables;

pub use chain::chain_deck;
pub use circuit::Circuit;
pub use horizon::Horizon;
pub use laws::circuit_laws;
