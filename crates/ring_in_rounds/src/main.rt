//! A circuit, read from text, is run in rounds by four workers, and what its outputs told is printed.
#![tactic(auto)]

use bench_reader::read_deck;
use graph_update::Engine;
use kdg_prog::Status;
use logic_sim::Circuit;
use outer_edge::Seeded;
use source_pool::run_rounds;
use std::io::Write;

fn main(rt: HostRuntime) -> Result<(), Status> {
    let deck = read_deck(rt.alloc(), b"INPUT(a)\nOUTPUT(q)\nq = NAND(a, q)\n@ 2 1\n")?;
    let circuit = Circuit::new(rt.alloc(), deck, 5, 10)?;
    let (cells, first) = (circuit.first_cells()?, circuit.first_tasks()?);
    let engine = Engine::begin_uncounted(rt.alloc(), &circuit, cells, first, 1_000)?;
    let (finals, _rounds) = run_rounds(&rt, rt.alloc(), engine, &Seeded, 1, 4)?;
    let printed = rt.stdout().write_all(finals.text.bytes());
    printed.map_err(|_| Status::WriteFault)
}
