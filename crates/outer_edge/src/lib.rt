//! Where bytes come from and where they go: a source and a sink that may fail at any call, the two
//! edges over std's readers and writers, sources and sinks in memory, and whole inputs and pieces.
//! And what is left to chance: a gate chooses among tasks that may all run.
#![tactic(auto)]

mod edge;
mod gate;
mod memory_sink;
mod memory_source;
mod sink;
mod source;
mod whole_input;
mod whole_piece;

pub use edge::{ReadEdge, WriteEdge};
pub use gate::{Gate, Seeded, Still};
pub use memory_sink::{CleanSink, MemSink};
pub use memory_source::{CleanSource, MemSource};
pub use sink::{Push, Sink};
pub use source::{Pull, Source};
pub use whole_input::{ReadAllFault, read_all, read_all_counted};
pub use whole_piece::{WriteAllFault, write_whole};
