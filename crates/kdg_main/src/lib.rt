//! What `main` does: the program over the words of the command line and three streams.
#![tactic(auto)]

use kdg_prog::{Status, run_and_tell, tell};
use outer_edge::{ReadEdge, Seeded, WriteEdge};
use std::env::Env;
use std::io::{ErrorKind, Read, Write};
use std::process::ExitCode;
use std::sync::Wait;
use std::thread::Threads;
use std::{env, io};

/// Runs the whole program over the words of the command line, and answers its exit code.
pub fn answer_command_line<
    R: Env + Threads + Wait + AllocGlobal + Sync,
    I: Read + Drop,
    O: Write + Drop,
    E: Write + Drop,
>(rt: &R, input: I, output: O, errors: E) -> ExitCode {
    let mut errors = WriteEdge::new(errors);
    let status = match words_of(rt) {
        Ok(words) => run_and_tell(
            rt,
            &words,
            &mut ReadEdge::new(input),
            &mut WriteEdge::new(output),
            &mut errors,
            &Seeded,
        ),
        Err(status) => {
            tell(&status, &mut errors);
            status
        }
    };
    ExitCode::from(status.code())
}

/// The words of the command line, without the program's name.
fn words_of<R: Env + AllocGlobal>(rt: &R) -> Result<Vec<String>, Status> {
    let mut words = Vec::new(rt.alloc());
    for word in env::args(rt).map_err(|error| refusal_of(&error))?.skip(1) {
        words.push(word).map_err(|_| Status::NoMemory)?;
    }
    Ok(words)
}

/// Words that are no text are told as a bad first word.
fn refusal_of(error: &io::Error) -> Status {
    match error.kind() {
        ErrorKind::OutOfMemory => Status::NoMemory,
        _ => Status::Usage { word: 1 },
    }
}
