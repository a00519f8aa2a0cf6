//! Circuits that run.

use super::decks::C17;
use super::rows::expect;
use app_laws::{Finals, SerialFault, serial};
use bench_reader::read_deck;
use cell_store::value_laws;
use kdg_text::{NoRoom, Text, push_u64};
use logic_sim::Circuit;
use std::alloc::Global;
use std::process::Abort;
use std::test::Fail;
use task_order::{Body, Start};

/// The circuit of a deck, which runs until a time, and whose clock ticks at each multiple of `clock`.
fn circuit_of(
    rt: &impl Abort,
    alloc: Global,
    deck: &str,
    until: u64,
    clock: u64,
) -> Result<Circuit, Fail> {
    assert!(rt; until <= 1_000_000_000);
    assert!(rt; 1 <= clock && clock <= 1_000_000_000);
    Ok(Circuit::new(alloc, read_deck(alloc, deck.as_bytes())?, until, clock)?)
}

/// What a serial run leaves, and the print of its cells.
fn run(alloc: Global, circuit: &Circuit) -> Result<(Finals<u8>, Text), SerialFault> {
    value_laws::<u8>();
    let cells = circuit.first_cells()?;
    let first = circuit.first_tasks()?;
    let finals = serial(alloc, circuit, cells, first, 100)?;
    let last_lines = circuit.print_finals(&finals.store)?;
    Ok((finals, last_lines))
}

/// What the tasks of a run write, the print of its cells at the end and the number of its tasks, with a bar
/// between them.
fn outcome_of(alloc: Global, circuit: &Circuit) -> Result<Text, SerialFault> {
    let (finals, last_lines) = run(alloc, circuit)?;
    Ok(joined(finals.text, &last_lines, finals.count)?)
}

fn joined(log: Text, last_lines: &Text, count: u64) -> Result<Text, NoRoom> {
    let mut text = log;
    text.push_byte(b'|')?;
    text.push_all(last_lines.bytes())?;
    text.push_byte(b'|')?;
    push_u64(&mut text, count)?;
    Ok(text)
}

/// Whether a circuit has this outcome, and counts its first tasks.
fn comes_to(alloc: Global, circuit: &Circuit, outcome: &str) -> Result<bool, Fail> {
    let count = circuit.first_tasks()?.items().len() as u64;
    let is_counted = circuit.first_task_count() == count;
    Ok(is_counted && outcome_of(alloc, circuit)?.bytes() == outcome.as_bytes())
}

/// The evaluation of a gate at time 0.
fn evaluation(gate: u32) -> Start {
    let body = Body {
        kind: 1,
        at: gate,
        arg: 0,
    };
    Start { prio: 1, body }
}

#[test]
fn c17_starts_with_its_gates(rt: HostRuntime) -> Result<(), Fail> {
    let circuit = circuit_of(&rt, rt.alloc(), C17, 1000, 10)?;
    assert!(rt; circuit.first_cells()?.as_slice() == [0u8; 22].as_slice());
    let starts = [5, 6, 7, 8, 9, 10].map(evaluation);
    assert!(rt; circuit.first_tasks()?.items() == starts.as_slice());
    Ok(())
}

/// The ISCAS-89 circuit s27.
const S27: &str =
    "INPUT(G0)\nINPUT(G1)\nINPUT(G2)\nINPUT(G3)\nOUTPUT(G17)\nG5 = DFF(G10)\nG6 = DFF(G11)\nG7 = DFF(G13)\nG14 = NOT(G0)\nG17 = NOT(G11)\nG8 = AND(G14, G6)\nG15 = OR(G12, G8)\nG16 = OR(G3, G8)\nG9 = NAND(G16, G15)\nG10 = NOR(G14, G11)\nG11 = NOR(G5, G9)\nG12 = NOR(G1, G7)\nG13 = NOR(G2, G12)\n";

/// A deck, the time until which it runs, its clock, and its outcome.
type Run = (&'static str, u64, u64, &'static str);

const GATES: &[Run] = &[
    (
        C17,
        1000,
        10,
        "1 22 1\n1 23 1\n2 22 0\n2 23 0\n|final 22 0\nfinal 23 0\n|20",
    ),
    // nothing may change after time 0
    (C17, 0, 10, "|final 22 0\nfinal 23 0\n|6"),
    // a gate that names a fan-in twice is evaluated once for its change
    (
        "OUTPUT(h)\nINPUT(a)\ng = NAND(a, a)\nh = NAND(g, g)\n",
        1000,
        10,
        "1 h 1\n2 h 0\n|final h 0\n|6",
    ),
    // a loop
    (
        "OUTPUT(q)\nq = NOT(q)\n",
        3,
        10,
        "1 q 1\n2 q 0\n3 q 1\n|final q 1\n|7",
    ),
    // a loop that settles
    (
        "INPUT(a)\nOUTPUT(q)\nq = NAND(a, q)\n",
        5,
        10,
        "1 q 1\n|final q 1\n|3",
    ),
    // outputs in the order of their declaration, and an input among them
    (
        "OUTPUT(b)\nOUTPUT(a)\nINPUT(a)\nb = NOT(a)\n",
        1000,
        10,
        "1 b 1\n|final b 1\nfinal a 0\n|2",
    ),
    ("", 1000, 10, "||0"),
];

const FLIP_FLOPS_AND_DELAYS: &[Run] = &[
    ("INPUT(d)\nq = DFF(d)", 1000, 10, "||100"),
    (
        "OUTPUT(q)\nn = NOT(q)\nq = DFF(n)",
        7,
        3,
        "4 q 1\n7 q 0\n|final q 0\n|9",
    ),
    // no tick in time
    ("OUTPUT(q)\nn = NOT(q)\nq = DFF(n)", 7, 8, "|final q 0\n|2"),
    (
        "INPUT(a)\nOUTPUT(x)\nx = NOT(a)\n@delay x 3\n@ 5 1",
        1000,
        10,
        "3 x 1\n8 x 0\n|final x 0\n|5",
    ),
    (S27, 100, 10, "1 G17 1\n2 G17 0\n3 G17 1\n|final G17 1\n|63"),
];

/// Asks that these circuits have their outcomes.
fn expect_outcomes(rt: &impl Abort, alloc: Global, runs: &[Run]) -> Result<(), Fail> {
    for &(deck, until, clock, outcome) in runs {
        let circuit = circuit_of(rt, alloc, deck, until, clock)?;
        expect(rt, comes_to(alloc, &circuit, outcome)?, deck);
    }
    Ok(())
}

#[test]
fn circuits_run_to_their_end(rt: HostRuntime) -> Result<(), Fail> {
    expect_outcomes(&rt, rt.alloc(), GATES)
}

#[test]
fn flip_flops_and_delays_take_their_time(rt: HostRuntime) -> Result<(), Fail> {
    expect_outcomes(&rt, rt.alloc(), FLIP_FLOPS_AND_DELAYS)
}
