//! Circuits that several crates of trials run, as text.
#![tactic(auto)]

/// The ISCAS-85 circuit c17.
pub const C17: &str =
    "INPUT(1)\nINPUT(2)\nINPUT(3)\nINPUT(6)\nINPUT(7)\nOUTPUT(22)\nOUTPUT(23)\n10 = NAND(1, 3)\n11 = NAND(3, 6)\n16 = NAND(2, 11)\n19 = NAND(11, 7)\n22 = NAND(10, 16)\n23 = NAND(16, 19)\n";

/// c17 as it is handed round: with comments, blank lines, and a carriage return before each line
/// feed.
pub const C17_WITH_HEADER: &str =
    "# c17\r\n# 5 inputs\r\n# 2 outputs\r\n# 0 inverter\r\n# 6 gates ( 6 NANDs )\r\n\r\nINPUT(1)\r\nINPUT(2)\r\nINPUT(3)\r\nINPUT(6)\r\nINPUT(7)\r\n\r\nOUTPUT(22)\r\nOUTPUT(23)\r\n\r\n10 = NAND(1, 3)\r\n11 = NAND(3, 6)\r\n16 = NAND(2, 11)\r\n19 = NAND(11, 7)\r\n22 = NAND(10, 16)\r\n23 = NAND(16, 19)\r\n";

/// c17 with a stimulus at 10.
pub const C17_STIMULUS: &str =
    "INPUT(1)\nINPUT(2)\nINPUT(3)\nINPUT(6)\nINPUT(7)\nOUTPUT(22)\nOUTPUT(23)\n10 = NAND(1, 3)\n11 = NAND(3, 6)\n16 = NAND(2, 11)\n19 = NAND(11, 7)\n22 = NAND(10, 16)\n23 = NAND(16, 19)\n@ 10 11111\n";

/// A gate that reads itself, with a stimulus; it turns from the time 2 on.
pub const RING: &str = "INPUT(a)\nOUTPUT(q)\nq = NAND(a, q)\n@ 2 1\n";
