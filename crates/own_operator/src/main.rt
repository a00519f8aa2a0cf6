//! `own_operator MODE WORKERS LENGTH [LOOKAHEAD [GROUPS [TASKS]]]`: runs an operator of one's own, a closure over
//! groups of one cell each, and prints what the cells come to and how many tasks there were.
//!
//! - MODE is `serial`, `rounds` or `free`.
//! - WORKERS, from 1 to 64, is how many workers perform tasks. Mode `serial` takes no notice of it.
//! - LENGTH is how many multiplications a task makes, below 2^32.
//! - LOOKAHEAD, from 1 to 4096 and by default 1, is by how much in priority each task of a group comes after
//!   the one before it. The first one of group `at` has the priority `at % LOOKAHEAD`.
//! - GROUPS, from 1 to 4096 and by default 64, is how many groups there are.
//! - TASKS, from 4096 to 1,048,576 and by default 16,384, is how many tasks there are. Each group has
//!   TASKS / GROUPS of them, rounded down.
//!
//! Other words are answered by a line that tells the usage, and exit code 2.
#![tactic(auto)]

ghost use Rattle.std.specs.Prelude.{◌≤◌, IfSome};
ghost use Rattle.own_operator.specs.Mixing.{IsMixer};

#[cfg(test)]
mod choices;
mod mixer;
mod mixing;
mod setting;
#[cfg(test)]
mod words;

use app_laws::Finals;
use cell_store::Seen;
use mixing::run;
use outer_edge::Seeded;
use setting::{Setting, read_setting};
use std::env;
use std::env::Env;
use std::process::ExitCode;

fn main(rt: HostRuntime) -> ExitCode {
    let Some(setting) = setting_of(&rt) else {
        let _ = eprintln!(rt;
            "usage: own_operator serial|rounds|free WORKERS LENGTH [LOOKAHEAD [GROUPS [TASKS]]]"
        );
        return ExitCode::from(2);
    };
    let Ok(finals) = run(&rt, rt.alloc(), &setting, &Seeded) else {
        let _ = eprintln!(rt; "no memory");
        return ExitCode::from(1);
    };
    let digest = digest_of(&finals);
    match println!(rt; "cells {digest}\ntasks {}", finals.count) {
        Ok(()) => ExitCode::SUCCESS,
        Err(_) => ExitCode::from(1),
    }
}

/// What the words of the command line say.
fn setting_of(rt: &(impl Env + AllocGlobal)) -> Option<Setting>
    ensures workers { IfSome result (λ setting. (1 ≤ setting.workers) × (setting.workers ≤ 64)) }
    ensures mixer { IfSome result (λ setting. IsMixer setting.mixer) }
{
    let mut words = Vec::new(rt.alloc());
    for word in env::args(rt).ok()?.skip(1) {
        words.push(word).ok()?;
    }
    read_setting(&words)
}

/// The final values as one number.
fn digest_of(finals: &Finals<u64>) -> u64 {
    let mut digest = 0u64;
    for loc in 0..finals.store.len() {
        if let Seen::At(value) = finals.store.peek(loc) {
            digest = digest.rotate_left(5).wrapping_add(*value);
        }
    }
    digest
}
