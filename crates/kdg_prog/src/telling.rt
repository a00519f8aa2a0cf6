//! The program as a whole: what its words, its input and its devices are answered.

ghost use Rattle.std.specs.Prelude.{◌≡◌, ◌≢◌, ◌<◌, map, string_bytes, IfOk, IfErr};
ghost use Rattle.outer_edge.specs.Transfers.{transfer_of};
ghost use Rattle.kdg_prog.specs.Headline.{Promises, TellsBadWord};
ghost use Rattle.kdg_prog.specs.Searches.{TellsLevels};
ghost use Rattle.kdg_prog.specs.Serving.{MayLeaveLog};
ghost use Rattle.kdg_prog.specs.Telling.{IsTold};
ghost use Rattle.kdg_prog.specs.Words.{options_of};

use crate::{Status, fault_line, run};
use outer_edge::{Gate, Sink, Source, write_whole};
use std::sync::Wait;
use std::thread::Threads;

/// The whole program: does what `run` does, and where the status isn't `Ok` writes its fault line to
/// `errors`. The exit code is that of the status. A fault of `errors` changes nothing else.
pub fn run_and_tell<
    R: Threads + Wait + AllocGlobal + Sync,
    S: Source,
    K: Sink,
    E: Sink,
    G: Gate + Sync,
>(rt: &R, words: &Vec<String>, source: &mut S, sink: &mut K, errors: &mut E, gate: &G) -> Status
    ensures usage { TellsBadWord (options_of (map string_bytes words.now.items)) result }
    ensures untouched { IfErr (options_of (map string_bytes words.now.items))
        (λ _. (source.new ≡ source.old) × (sink.new ≡ sink.old)) }
    ensures promises { IfOk (options_of (map string_bytes words.now.items)) (λ options.
        Promises options (transfer_of S.remaining S.faults source.old source.new)
        (transfer_of K.contents K.faults sink.old sink.new) result) }
    ensures levels { IfOk (options_of (map string_bytes words.now.items)) (λ options.
        TellsLevels options (transfer_of S.remaining S.faults source.old source.new)
        (transfer_of K.contents K.faults sink.old sink.new) result) }
    ensures unread { IfOk (options_of (map string_bytes words.now.items))
        (λ options. 0 < options.big → source.new ≡ source.old) }
    ensures no_write { IfOk (options_of (map string_bytes words.now.items))
        (λ options. result ≢ Status.Ok → result ≢ Status.WriteFault → ¬ MayLeaveLog options result → sink.new ≡ sink.old) }
    ensures same_room { K.room sink.new ≡ K.room sink.old }

    // The fault line comes exactly where the status isn't Ok.
    ensures told { result ≢ Status.Ok → IsTold result (transfer_of E.contents E.faults errors.old errors.new) }
    ensures nothing_told { result ≡ Status.Ok → errors.new ≡ errors.old }
{
    let status = run(rt, rt.alloc(), words, source, sink, gate);
    tell(&status, errors);
    status
}

/// Writes the fault line of a status and a line feed to a sink for errors, and nothing for `Status::Ok`.
/// There is nobody to be told where that fails.
pub fn tell<E: Sink>(status: &Status, errors: &mut E)
    ensures told { status.now ≢ Status.Ok → IsTold status.now (transfer_of E.contents E.faults errors.old errors.new) }
    ensures untouched { status.now ≡ Status.Ok → errors.new ≡ errors.old }
{
    let mut line = [b'\n'; 64];
    let len = fault_line(status, &mut line);
    if len > 0 {
        let _ = write_whole(errors, &line[..len + 1]);
    }
}
