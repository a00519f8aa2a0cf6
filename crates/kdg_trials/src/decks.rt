//! The inputs of the examples.

pub use worked_decks::{C17_WITH_HEADER, RING};

/// The first 151 bytes of the ISCAS-85 circuit c17, and what stands behind them.
macro_rules! c17 {
    ($behind:literal) => {
        concat!(
            "INPUT(1)\nINPUT(2)\nINPUT(3)\nINPUT(6)\nINPUT(7)\nOUTPUT(22)\nOUTPUT(23)\n10 = NAND(1, 3)\n11 = NAND(3, 6)\n16 = NAND(2, 11)\n19 = NAND(11, 7)\n22 = NAND(10, 16)\n",
            $behind
        )
    };
}

/// The ISCAS-85 circuit c17 before its last line.
pub const C17_SHORT: &str = c17!("");

/// The circuit before its last two bytes.
pub const C17_OPEN: &str = c17!("23 = NAND(16, 19");

/// The circuit.
pub const C17: &str = c17!("23 = NAND(16, 19)\n");

/// The circuit, and a zero byte.
pub const C17_AND_ZERO: &str = c17!("23 = NAND(16, 19)\n\0");

/// c17 with a stimulus at 10.
pub const C17_STIMULUS: &str = c17!("23 = NAND(16, 19)\n@ 10 11111\n");

/// What is printed for it.
pub const C17_STIMULUS_PRINT: &str =
    "1 22 1\n1 23 1\n2 22 0\n2 23 0\n12 22 1\n12 23 1\n13 23 0\nfinal 22 1\nfinal 23 0\ntasks 49\n";

/// The first lines of the log of `RING`, more than 10 tasks write.
pub const RING_LOG: &str = "1 q 1\n3 q 0\n4 q 1\n5 q 0\n6 q 1\n7 q 0\n8 q 1\n9 q 0\n";

/// The lines of its rounds of at most 10 tasks.
pub const RING_WITHIN_TEN: &str = "1 q 1\n3 q 0\n4 q 1\n";

/// A ring of five gates that feeds back, so that it changes for ever.
pub const FEEDBACK: &str =
    "OUTPUT(s4)\ns0 = XNOR(s4, s2)\ns1 = BUFF(s0)\ns2 = BUFF(s1)\ns3 = BUFF(s2)\ns4 = BUFF(s3)\n";

/// c17 with a stimulus that has four bits for five inputs.
pub const C17_SHORT_STIMULUS: &str = c17!("23 = NAND(16, 19)\n@ 3 1011\n");

/// What c17 prints: 6 evaluations at 0, 6 changes and 6 evaluations at 1, and 2 changes at 2.
pub const C17_PRINT: &str = "1 22 1\n1 23 1\n2 22 0\n2 23 0\nfinal 22 0\nfinal 23 0\ntasks 20\n";

/// What c17 prints where figures are asked for in mode rounds: evaluations at 0, changes at 1, four of
/// the evaluations at 1, the two others, and the changes at 2.
pub const C17_ROUNDS_PRINT: &str =
    "1 22 1\n1 23 1\n2 22 0\n2 23 0\nfinal 22 0\nfinal 23 0\ntasks 20\nrounds 5\n";
