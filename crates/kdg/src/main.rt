//! `kdg WORDS < INPUT`: runs an ordered algorithm on its input and prints what it gives.
#![tactic(auto)]

use kdg_main::answer_command_line;
use std::process::ExitCode;

fn main(rt: HostRuntime) -> ExitCode {
    answer_command_line(&rt, rt.stdin(), rt.stdout(), rt.stderr())
}
