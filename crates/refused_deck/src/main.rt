//! `kdg` once more, for a second stored run: a deck with a fault, which is refused with exit code 3.
#![tactic(auto)]

use kdg_main::answer_command_line;
use std::process::ExitCode;

fn main(rt: HostRuntime) -> ExitCode {
    answer_command_line(&rt, rt.stdin(), rt.stdout(), rt.stderr())
}
