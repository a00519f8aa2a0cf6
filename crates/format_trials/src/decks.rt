//! Decks, and the faults of what is none.

use super::rows::{expect, push_pieces};
use bench_reader::{Deck, Form, GateKind, read_deck};
use kdg_text::{Fault, ReadFail, Text, push_u64};
use std::alloc::Global;
use std::test::Fail;
pub(crate) use worked_decks::C17;
use worked_decks::C17_WITH_HEADER;

/// What both are read as.
const C17_SHOWN: &str =
    "1|2|3|6|7|10 nand 0 2|11 nand 2 3|16 nand 1 6|19 nand 6 4|22 nand 5 7|23 nand 7 8|outputs 9 10";

/// A name of 64 bytes.
const LONGEST: &str = "a234567890123456789012345678901234567890123456789012345678901234";

/// A name of 65 bytes.
const TOO_LONG: &str = "a2345678901234567890123456789012345678901234567890123456789012345";

fn word_of(kind: GateKind) -> &'static [u8] {
    match kind {
        GateKind::And => b"and",
        GateKind::Nand => b"nand",
        GateKind::Or => b"or",
        GateKind::Nor => b"nor",
        GateKind::Xor => b"xor",
        GateKind::Xnor => b"xnor",
        GateKind::Not => b"not",
        GateKind::Buff => b"buff",
    }
}

/// The deck as text: a piece for each signal with the numbers of its fan-ins, one for the outputs,
/// and one for each stimulus. A delay is shown where it isn't 0 of an input or 1 of another signal.
fn shown(alloc: Global, deck: &Deck) -> Result<Text, Fail> {
    let mut text = Text::new(alloc);
    for (signal, delay) in deck.signals.items().iter().zip(deck.delays.items()) {
        text.push_all(signal.name.bytes())?;
        let usual = push_form(&mut text, &signal.form)?;
        if *delay != usual {
            text.push_all(b" delay")?;
            push_numbers(&mut text, &[*delay])?;
        }
        text.push_byte(b'|')?;
    }
    text.push_all(b"outputs")?;
    push_numbers(&mut text, deck.outputs.items())?;
    for stimulus in deck.stimuli.items() {
        text.push_all(b"|@ ")?;
        push_u64(&mut text, stimulus.time)?;
        push_numbers(&mut text, stimulus.bits.items())?;
    }
    Ok(text)
}

/// What drives a signal; the answer is its usual delay.
fn push_form(text: &mut Text, form: &Form) -> Result<u32, Fail> {
    match form {
        Form::Input => Ok(0),
        Form::Gate { kind, fan_in } => {
            text.push_byte(b' ')?;
            text.push_all(word_of(*kind))?;
            push_numbers(text, fan_in.items())?;
            Ok(1)
        }
        Form::Dff { source } => {
            text.push_all(b" dff")?;
            push_numbers(text, &[*source])?;
            Ok(1)
        }
    }
}

fn push_numbers(text: &mut Text, numbers: &[u32]) -> Result<(), Fail> {
    for number in numbers {
        text.push_byte(b' ')?;
        push_u64(text, u64::from(*number))?;
    }
    Ok(())
}

fn is_read_as(alloc: Global, input: &str, want: &str) -> Result<bool, Fail> {
    let Ok(deck) = read_deck(alloc, input.as_bytes()) else {
        return Ok(false);
    };
    Ok(shown(alloc, &deck)?.bytes() == want.as_bytes())
}

fn is_refused(alloc: Global, input: &[u8], line: u64, kind: u8, bound: u64) -> bool {
    let fault = Fault { line, kind, bound };
    read_deck(alloc, input).err() == Some(ReadFail::Bad(fault))
}

/// Decks, and what each is read as.
const DECKS: &[(&str, &str)] = &[
    (C17, C17_SHOWN),
    (C17_WITH_HEADER, C17_SHOWN),
    ("", "outputs"),
    ("\n \t\r\n#\n  # x = (\n\r", "outputs"),
    // a gate that reads itself, and names used before their line
    (
        "OUTPUT(q)\nq = NAND(a, q)\nINPUT(a)",
        "q nand 1 0|a|outputs 0",
    ),
    // tabs, no space at all, a comment right behind, and bytes of any kind in it
    (
        "\tINPUT\t( a ) \r\n b=NOT(\ta)#\u{e9}\r\nOUTPUT(b)\r",
        "a|b not 0|outputs 1",
    ),
    // a fan-in twice, and an output twice
    (
        "INPUT(a)\nb = NAND(a,a)\nOUTPUT(b)\nOUTPUT(a)\nOUTPUT(b)\n",
        "a|b nand 0 0|outputs 1 0",
    ),
    // all kinds, in letters of any case
    (
        "input(a)\nOutPut(h)\nb=and(a)\nc=OR(a,b)\nd=Nor(a)\ne=XOR(a)\nf=xnor(a)\ng=BUFF(a)\nh=bUF(a)\ni=nAnd(a)\nj=not(a)",
        "a|b and 0|c or 0 1|d nor 0|e xor 0|f xnor 0|g buff 0|h buff 0|i nand 0|j not 0|outputs 7",
    ),
    // names that are words, and names in letters of another case
    (
        "INPUT(x)\nINPUT(X)\nINPUT = NOT(x)\nDFF = NAND(INPUT)\nOUTPUT(INPUT)\n",
        "x|X|INPUT not 0|DFF nand 2|outputs 2",
    ),
    ("INPUT(~!@$)\n", "~!@$|outputs"),
    // flip-flops: of an input, of a gate that reads it, and of itself
    (
        "INPUT(d)\nq = DFF(d)\nOUTPUT(q)\np = dff(n)\nn = NOT(p)\ns = Dff(s)",
        "d|q dff 0|p dff 3|n not 2|s dff 4|outputs 1",
    ),
    // delays, before and behind the lines of their gates
    (
        "INPUT(a)\n@delay q 1000000\nx = NOT(a)\n@DELAY x 03\nq = DFF(x)\n@ 5 1",
        "a|x not 0 delay 3|q dff 1 delay 1000000|outputs|@ 5 1",
    ),
    (
        "INPUT(a)\nDELAY = AND(a)\n@Delay\tDELAY 1 # one\nb = OR(a)",
        "a|DELAY and 0|b or 0|outputs",
    ),
    // an input that is an output
    ("OUTPUT(a)\nINPUT(a)", "a|outputs 0"),
    // stimuli before and behind the inputs
    (
        "@ 1000000000 01\nINPUT(a)\nINPUT(b)\n@ 007 10\n@ 0 11",
        "a|b|outputs|@ 1000000000 0 1|@ 7 1 0|@ 0 1 1",
    ),
];

#[test]
fn decks(rt: HostRuntime) -> Result<(), Fail> {
    let alloc = rt.alloc();
    for &(input, want) in DECKS {
        expect(&rt, is_read_as(alloc, input, want)?, input);
    }
    Ok(())
}

/// Inputs that are none, with the line and the kind of the fault: each fault alone, and beside those that
/// come before it.
const FAULTS: &[(&str, u64, u8)] = &[
    // no form of the profile, or a byte that isn't allowed
    ("\nx", 2, 1),
    ("INPUT(a) b", 1, 1),
    ("INPUT(a", 1, 1),
    ("INPUT a", 1, 1),
    ("INPUT()", 1, 1),
    ("INPUT(a, b)", 1, 1),
    ("OUTPUT(()", 1, 1),
    ("INPUTS(a)", 1, 1),
    ("INPUT(@a)", 1, 1),
    ("@b = NOT(a)", 1, 1),
    ("INPUT(a#)", 1, 1),
    ("INPUT(\u{7f})", 1, 1),
    ("INPUT(a)\rb", 1, 1),
    ("x = NOT()", 1, 1),
    ("x = AND(a,)", 1, 1),
    ("x = AND(a b)", 1, 1),
    ("x = AND(a))", 1, 1),
    ("x = ((a)", 1, 1),
    ("x = AND", 1, 1),
    ("= vdd", 1, 1),
    ("@ 1", 1, 1),
    ("@1 1", 1, 1),
    ("@ 1 2", 1, 1),
    ("@ 1 1 1", 1, 1),
    ("x = DFF()", 1, 1),
    ("x = DFF(a", 1, 1),
    ("@delay", 1, 1),
    ("@delay x", 1, 1),
    ("@delay x 3 4", 1, 1),
    ("@delay = 3", 1, 1),
    ("@delay ( 0", 1, 1),
    ("@delay ( x )", 1, 1),
    ("@delay @x 3", 1, 1),
    ("@delays x 3", 1, 1),
    ("@ delay x 3", 1, 1),
    ("@delay = NOT(a)", 1, 1),
    // the word of a gate names no kind
    ("x = NANDS(a)", 1, 2),
    ("x = @(a)", 1, 2),
    ("x = vdd(a)", 1, 2),
    ("x = NANDS(a", 1, 1),
    // what is known and not taken
    ("# c\nx = MUX(a)", 2, 3),
    ("x = mux(a, b)", 1, 3),
    ("x = Lut(a)", 1, 3),
    ("x = vDD", 1, 3),
    ("x = gnd", 1, 3),
    // one fan-in
    ("x = DFF(a, b)", 1, 4),
    ("x = dff(x, x, x)", 1, 4),
    ("x = NOT(a, b)", 1, 4),
    ("x = BUF(a, a)", 1, 4),
    ("x = BUFF(a, b)", 1, 4),
    ("x = NOT(a, b", 1, 1),
    // the time of a stimulus
    ("@ x 1", 1, 8),
    ("@ 1000000001 1", 1, 8),
    ("@ ( 1", 1, 8),
    ("@ 18446744073709551616 1", 1, 8),
    ("@ x 2", 1, 1),
    // the number of a delay
    ("@delay x 0", 1, 8),
    ("@delay x 1000001", 1, 8),
    ("@delay x y", 1, 8),
    ("@delay x -1", 1, 8),
    ("@delay x )", 1, 8),
    ("@delay x 18446744073709551617", 1, 8),
    // a name twice
    ("INPUT(a)\nINPUT(a)", 2, 5),
    ("INPUT(a)\na = AND(a)", 2, 5),
    ("a = AND(a)\nINPUT(a)", 2, 5),
    ("INPUT(a)\nINPUT(a", 2, 1),
    ("INPUT(a)\na = NANDS(a)", 2, 2),
    ("INPUT(a)\na = MUX(a, a)", 2, 3),
    ("INPUT(a)\na = NOT(a, a)", 2, 4),
    ("INPUT(a)\na = DFF(a)", 2, 5),
    ("a = DFF(a)\nINPUT(a)", 2, 5),
    ("INPUT(a)\na = DFF(a, a)", 2, 4),
    // a delay twice, of a gate or of nothing
    ("x = AND(x)\n@delay x 2\n@delay x 2", 3, 5),
    ("@delay x 2\nx = AND(x)\n@delay x 3", 3, 5),
    ("@delay y 2\n@delay y 3", 2, 5),
    ("@delay y 2\n@delay y 0", 2, 8),
    // a name that no line defines
    ("INPUT(1)\nOUTPUT(x)\nx = NAND(1, y)", 3, 6),
    ("OUTPUT(x)", 1, 6),
    ("x = AND(X)", 1, 6),
    ("q = DFF(d)", 1, 6),
    // a delay of an input, or of nothing
    ("INPUT(a)\n@delay a 3", 2, 6),
    ("@delay a 3\nINPUT(a)", 1, 6),
    ("@delay x 2\nOUTPUT(y)", 1, 6),
    ("OUTPUT(y)\n@delay x 0", 2, 8),
    ("@delay x 3\n@delay z 4\nx", 3, 1),
    ("@ 0 1\n@delay x 3", 1, 7),
    ("@delay x 3\n@ 0 1", 1, 6),
    ("OUTPUT(y)\nx", 2, 1),
    ("OUTPUT(y)\nx = NANDS(a)", 2, 2),
    ("OUTPUT(y)\nx = vdd", 2, 3),
    ("OUTPUT(y)\nx = NOT(a, b)", 2, 4),
    ("OUTPUT(y)\n@ x 1", 2, 8),
    ("OUTPUT(y)\nINPUT(a)\nINPUT(a)", 3, 5),
    ("x = AND(y)\nx = AND(z)", 2, 5),
    // the number of bits
    ("INPUT(a)\n@ 0 11", 2, 7),
    ("@ 0 1", 1, 7),
    ("@ 0 1\nx", 2, 1),
    ("@ 0 1\nx = NANDS(a)", 2, 2),
    ("@ 0 1\nx = gnd", 2, 3),
    ("@ 0 1\nx = NOT(a, b)", 2, 4),
    ("@ x 11", 1, 8),
    ("@ 0 11\nINPUT(a)\nINPUT(a)", 3, 5),
    ("@ 0 1\nOUTPUT(y)", 1, 7),
    ("OUTPUT(y)\n@ 0 1", 1, 6),
];

#[test]
fn faults(rt: HostRuntime) {
    for &(input, line, kind) in FAULTS {
        expect(
            &rt,
            is_refused(rt.alloc(), input.as_bytes(), line, kind, 0),
            input,
        );
    }
}

/// A long deck: how many inputs it has that are named by their numbers, and the pieces behind them, each with
/// how often it stands there.
type Long = (u64, &'static [(&'static str, usize)]);

/// The text of a long deck.
fn long_deck(alloc: Global, inputs: u64, pieces: &[(&str, usize)]) -> Result<Text, Fail> {
    let mut text = Text::new(alloc);
    for number in 0..inputs {
        text.push_all(b"INPUT(")?;
        push_u64(&mut text, number)?;
        text.push_all(b")\n")?;
    }
    push_pieces(&mut text, alloc, pieces)?;
    Ok(text)
}

/// Decks that reach a limit.
const WITHIN_LIMITS: &[Long] = &[
    (4096, &[]),
    (0, &[("INPUT(a)\n", 1), ("@ 1 0\n", 65536)]),
    (
        0,
        &[
            ("INPUT(a)\nINPUT(", 1),
            (LONGEST, 1),
            (")\nb = NAND(", 1),
            ("a,", 254),
            (LONGEST, 1),
            (")\n", 1),
        ],
    ),
];

/// Long inputs with the line, the kind and the bound of the fault.
const BEYOND_LIMITS: &[(Long, u64, u8, u64)] = &[
    ((0, &[("b = NAND(", 1), ("a,", 254), ("b)\n", 1)]), 1, 6, 0),
    ((0, &[("INPUT(", 1), (TOO_LONG, 1), (")", 1)]), 1, 9, 64),
    (
        (0, &[("b = NAND(", 1), ("a,", 255), ("a)\n", 1)]),
        1,
        9,
        255,
    ),
    (
        (
            0,
            &[("b = NAND(", 1), ("a,", 255), (TOO_LONG, 1), (")\n", 1)],
        ),
        1,
        9,
        64,
    ),
    ((4097, &[]), 4097, 9, 4096),
    (
        (4096, &[("INPUT(", 1), (TOO_LONG, 1), (")", 1)]),
        4097,
        9,
        64,
    ),
    (
        (4096, &[("b = NAND(", 1), ("a,", 255), ("a)\n", 1)]),
        4097,
        9,
        255,
    ),
    ((4096, &[("INPUT(0)", 1)]), 4097, 5, 0),
    ((4096, &[("OUTPUT(x)", 1)]), 4097, 6, 0),
    (
        (0, &[("INPUT(a)\n", 1), ("@ 1 0\n", 65537)]),
        65538,
        9,
        65536,
    ),
    (
        (0, &[("INPUT(a)\n", 1), ("@ 1 0\n", 65536), ("@ x 1", 1)]),
        65538,
        8,
        0,
    ),
    // a doubled name, a wrong number of names and a kind that isn't taken come before a limit
    (
        (0, &[("INPUT(b)\nb = AND(", 1), (TOO_LONG, 1), (")", 1)]),
        2,
        5,
        0,
    ),
    (
        (0, &[("INPUT(b)\nb = NOT(a, ", 1), (TOO_LONG, 1), (")", 1)]),
        2,
        4,
        0,
    ),
    (
        (0, &[("INPUT(b)\nb = DFF(", 1), (TOO_LONG, 1), (")", 1)]),
        2,
        5,
        0,
    ),
    (
        (0, &[("INPUT(b)\nb = MUX(", 1), (TOO_LONG, 1), (")", 1)]),
        2,
        3,
        0,
    ),
    (
        (0, &[("INPUT(b)\nb = x(", 1), (TOO_LONG, 1), (")", 1)]),
        2,
        2,
        0,
    ),
    (
        (0, &[("INPUT(b)\nb = (", 1), (TOO_LONG, 1), (")", 1)]),
        2,
        1,
        0,
    ),
    ((0, &[("q = DFF(", 1), (TOO_LONG, 1), (")", 1)]), 1, 9, 64),
    ((0, &[("@delay ", 1), (TOO_LONG, 1), (" 1", 1)]), 1, 9, 64),
    ((0, &[("@delay ", 1), (TOO_LONG, 1), (" 0", 1)]), 1, 8, 0),
    ((0, &[("@delay ", 1), (TOO_LONG, 1), (" 1 1", 1)]), 1, 1, 0),
];

#[test]
fn decks_may_reach_the_limits(rt: HostRuntime) -> Result<(), Fail> {
    for &(inputs, pieces) in WITHIN_LIMITS {
        let text = long_deck(rt.alloc(), inputs, pieces)?;
        assert!(rt; read_deck(rt.alloc(), text.bytes()).is_ok());
    }
    Ok(())
}

#[test]
fn decks_beyond_the_limits_are_refused(rt: HostRuntime) -> Result<(), Fail> {
    for &((inputs, pieces), line, kind, bound) in BEYOND_LIMITS {
        let text = long_deck(rt.alloc(), inputs, pieces)?;
        let is_wanted = is_refused(rt.alloc(), text.bytes(), line, kind, bound);
        expect(&rt, is_wanted, first_piece(pieces));
    }
    Ok(())
}

/// The first of the pieces of a long deck, which names it.
fn first_piece(pieces: &[(&'static str, usize)]) -> &'static str {
    match pieces.first() {
        Some(piece) => piece.0,
        None => "inputs alone",
    }
}
