ghost use Rattle.std.specs.Prelude.{◌≡◌, ◌≢◌, ◌<◌, map, string_bytes, IfOk, IfErr};
ghost use Rattle.outer_edge.specs.Transfers.{transfer_of};
ghost use Rattle.kdg_prog.specs.Answer.{pattern_problem};
ghost use Rattle.kdg_prog.specs.Headline.{CompletesInMemory, Promises, TellsBadWord};
ghost use Rattle.kdg_prog.specs.Inputs.{read_of};
ghost use Rattle.kdg_prog.specs.Searches.{AnswersLevels, TellsLevels};
ghost use Rattle.kdg_prog.specs.Serving.{IsRunServed, IsServed, MayLeaveLog};
ghost use Rattle.kdg_prog.specs.Words.{IsAllowed, options_of};

use crate::described::{circuit_for, matrix_for, mesh_for};
use crate::inputs::read_input;
use crate::running::{resting_print, serve_free_run, serve_run, write_print};
use crate::searching::{serve_free_levels, serve_levels};
use crate::{Command, Mode, Options, Status, read_words};
use gf2_eliminate::Matrix;
use kdg_text::Text;
use outer_edge::{CleanSink, CleanSource, Gate, Sink, Source};
use std::alloc::Global;
use std::sync::Wait;
use std::thread::Threads;

/// Reads the words and then the whole input, runs the circuit, the elimination, the mesh or the search
/// that it describes, and writes the print: the log, the finals, the number of tasks, and, where figures
/// are asked for in modes rounds and marks, that of rounds. Where the words say so, the input is made from a
/// number in place of being read, and the print has but figures of the log and the finals. In modes rounds
/// and free the log goes out while the run goes on, unless there are but figures, or a matrix is eliminated
/// in rounds at an open gate; what follows it is written at the end, as all is in the other modes.
///
/// In mode serial always the earliest pending task runs. In mode rounds the gate chooses among the
/// tasks that are clear, and workers perform them. In mode free each worker claims the next one as
/// soon as it has performed and ended one, and may wait while none is clear. In mode marks the tasks of
/// each round are found by marks on a board. What is printed is the same.
///
/// What is wrong is told in this order: the words; a failed read, or more bytes than the bound,
/// whichever comes first; the input; the budget; a failed write. `NoMemory` may come in place of
/// any answer but `Usage`. After a failed write nothing more is written, and a run whose log goes out goes
/// on, since it may be over the budget. Such a run may have written log lines before `Budget` or
/// `NoMemory`; else these come before anything is written.
pub fn run<R: Threads + Wait + Sync, S: Source, K: Sink, G: Gate + Sync>(
    rt: &R,
    alloc: Global,
    words: &Vec<String>,
    source: &mut S,
    sink: &mut K,
    gate: &G,
) -> Status
    // `Usage` comes exactly where a word is bad, and then nothing is read or written.
    ensures usage { TellsBadWord (options_of (map string_bytes words.now.items)) result }
    ensures untouched { IfErr (options_of (map string_bytes words.now.items))
        (λ _. (source.new ≡ source.old) × (sink.new ≡ sink.old)) }

    ensures promises { IfOk (options_of (map string_bytes words.now.items)) (λ options.
        Promises options (transfer_of S.remaining S.faults source.old source.new)
        (transfer_of K.contents K.faults sink.old sink.new) result) }

    // The levels of a graph are the lengths of shortest walks.
    ensures levels { IfOk (options_of (map string_bytes words.now.items)) (λ options.
        TellsLevels options (transfer_of S.remaining S.faults source.old source.new)
        (transfer_of K.contents K.faults sink.old sink.new) result) }

    // Where the input is made from a number, no read is made.
    ensures unread { IfOk (options_of (map string_bytes words.now.items))
        (λ options. 0 < options.big → source.new ≡ source.old) }

    // Only a front of the print or of the log is written.
    ensures no_write { IfOk (options_of (map string_bytes words.now.items))
        (λ options. result ≢ Status.Ok → result ≢ Status.WriteFault → ¬ MayLeaveLog options result → sink.new ≡ sink.old) }
    ensures same_room { K.room sink.new ≡ K.room sink.old }
{
    match read_words(words) {
        Ok(options) => run_asked(rt, alloc, &options, source, sink, gate),
        Err(word) => Status::Usage { word },
    }
}

/// Does what `run` does behind its words.
fn run_asked<R: Threads + Wait + Sync, S: Source, K: Sink, G: Gate + Sync>(
    rt: &R,
    alloc: Global,
    options: &Options,
    source: &mut S,
    sink: &mut K,
    gate: &G,
) -> Status
    requires { IsAllowed options.now }
    ensures promises { Promises options.now (transfer_of S.remaining S.faults source.old source.new)
        (transfer_of K.contents K.faults sink.old sink.new) result }
    ensures levels { TellsLevels options.now (transfer_of S.remaining S.faults source.old source.new)
        (transfer_of K.contents K.faults sink.old sink.new) result }
    ensures unread { 0 < options.now.big → source.new ≡ source.old }
    ensures no_write { result ≢ Status.Ok → result ≢ Status.WriteFault → ¬ MayLeaveLog options.now result → sink.new ≡ sink.old }
    ensures same_room { K.room sink.new ≡ K.room sink.old }
{
    match options.mode {
        Mode::Serial | Mode::Rounds | Mode::Marks => run_plain(
            rt, alloc, options, source, sink, gate,
        ),
        Mode::Free => match read_input(alloc, options.big, source) {
            Ok(input) => status_of(serve_free(rt, alloc, options, input, sink, gate)),
            Err(fault) => Status::from(fault),
        },
    }
}

/// Does what `run` does behind its words, in mode serial, rounds or marks. It waits for nobody but the
/// workers that it starts, which wait for nobody.
pub fn run_plain<R: Threads + Sync, S: Source, K: Sink, G: Gate + Sync>(
    rt: &R,
    alloc: Global,
    options: &Options,
    source: &mut S,
    sink: &mut K,
    gate: &G,
) -> Status
    requires allowed { IsAllowed options.now }
    requires plain { options.now.mode ≢ Mode.Free }
    ensures promises { Promises options.now (transfer_of S.remaining S.faults source.old source.new)
        (transfer_of K.contents K.faults sink.old sink.new) result }
    ensures levels { TellsLevels options.now (transfer_of S.remaining S.faults source.old source.new)
        (transfer_of K.contents K.faults sink.old sink.new) result }
    ensures unread { 0 < options.now.big → source.new ≡ source.old }
    ensures no_write { result ≢ Status.Ok → result ≢ Status.WriteFault → ¬ MayLeaveLog options.now result → sink.new ≡ sink.old }
    ensures same_room { K.room sink.new ≡ K.room sink.old }
{
    match read_input(alloc, options.big, source) {
        Ok(input) => status_of(serve(rt, alloc, options, input, sink, gate)),
        Err(fault) => Status::from(fault),
    }
}

/// The status of a run that has come to an end.
fn status_of(end: Result<(), Status>) -> Status
    ensures ok { IfOk end (λ _. result ≡ Status.Ok) }
    ensures refused { IfErr end (λ answer. result ≡ answer) }
{
    match end {
        Ok(()) => Status::Ok,
        Err(answer) => answer,
    }
}

/// `run_plain` over a source and a sink in memory that never fail. Where the sink has room for more
/// than the print, only the input decides the answer, or memory runs out.
pub fn run_in_memory<R: Threads + Sync, G: Gate + Sync>(
    rt: &R,
    alloc: Global,
    options: &Options,
    source: &mut CleanSource,
    sink: &mut CleanSink,
    gate: &G,
) -> Status
    requires allowed { IsAllowed options.now }
    requires plain { options.now.mode ≢ Mode.Free }
    ensures { result ≢ Status.NoMemory →
        CompletesInMemory options.now (read_of options.now.big source.old.left) sink.old sink.new result }
{
    run_plain(rt, alloc, options, source, sink, gate)
}

/// Writes the print for an input in mode serial, rounds or marks, or tells why there is none.
fn serve<R: Threads + Sync, K: Sink, G: Gate + Sync>(
    rt: &R,
    alloc: Global,
    options: &Options,
    input: Text,
    sink: &mut K,
    gate: &G,
) -> Result<(), Status>
    requires allowed { IsAllowed options.now }
    requires plain { options.now.mode ≢ Mode.Free }
    ensures served { IsServed options.now input (transfer_of K.contents K.faults sink.old sink.new) result }
    ensures levels { options.now.command ≡ Command.Levels → IfOk result (λ _. AnswersLevels options.now input) }
    ensures no_write { IfErr result (λ answer. answer ≢ Status.WriteFault → ¬ MayLeaveLog options.now answer → sink.new ≡ sink.old) }
    ensures same_room { K.room sink.new ≡ K.room sink.old }
{
    match options.command {
        Command::Sim => {
            let circuit = circuit_for(alloc, options, input)?;
            serve_run(rt, alloc, options, &circuit, sink, gate)
        }
        Command::Rank => {
            let matrix = matrix_for(alloc, options, input)?;
            serve_matrix(rt, alloc, options, &matrix, sink, gate)
        }
        Command::Mesh => {
            let mesh = mesh_for(alloc, options, input)?;
            serve_run(rt, alloc, options, &mesh, sink, gate)
        }
        Command::Levels => serve_levels(rt, alloc, options, input, sink, gate),
    }
}

/// Writes the print of an elimination in mode serial, rounds or marks, or tells why there is none. In modes
/// rounds and marks its tasks rest, and neither a graph nor a board is needed, unless the gate is to choose
/// among them.
fn serve_matrix<R: Threads + Sync, K: Sink, G: Gate + Sync>(
    rt: &R,
    alloc: Global,
    options: &Options,
    matrix: &Matrix,
    sink: &mut K,
    gate: &G,
) -> Result<(), Status>
    requires allowed { IsAllowed options.now }
    requires plain { options.now.mode ≢ Mode.Free }
    ensures served { IsRunServed options.now (pattern_problem matrix.now) (transfer_of K.contents K.faults sink.old sink.new) result }
    ensures no_write { IfErr result (λ answer. answer ≢ Status.WriteFault → ¬ MayLeaveLog options.now answer → sink.new ≡ sink.old) }
    ensures same_room { K.room sink.new ≡ K.room sink.old }
{
    match options.mode {
        Mode::Rounds | Mode::Marks if gate.is_open() => {
            let print = resting_print(alloc, options, matrix, gate);
            write_print(sink, print)
        }
        _ => serve_run(rt, alloc, options, matrix, sink, gate),
    }
}

/// `serve` in mode free.
fn serve_free<R: Threads + Wait + Sync, K: Sink, G: Gate + Sync>(
    rt: &R,
    alloc: Global,
    options: &Options,
    input: Text,
    sink: &mut K,
    gate: &G,
) -> Result<(), Status>
    requires allowed { IsAllowed options.now }
    requires mode { options.now.mode ≡ Mode.Free }
    ensures served { IsServed options.now input (transfer_of K.contents K.faults sink.old sink.new) result }
    ensures levels { options.now.command ≡ Command.Levels → IfOk result (λ _. AnswersLevels options.now input) }
    ensures no_write { IfErr result (λ answer. answer ≢ Status.WriteFault → ¬ MayLeaveLog options.now answer → sink.new ≡ sink.old) }
    ensures same_room { K.room sink.new ≡ K.room sink.old }
{
    match options.command {
        Command::Sim => {
            let circuit = circuit_for(alloc, options, input)?;
            serve_free_run(rt, alloc, options, &circuit, sink, gate)
        }
        Command::Rank => {
            let matrix = matrix_for(alloc, options, input)?;
            serve_free_run(rt, alloc, options, &matrix, sink, gate)
        }
        Command::Mesh => {
            let mesh = mesh_for(alloc, options, input)?;
            serve_free_run(rt, alloc, options, &mesh, sink, gate)
        }
        Command::Levels => serve_free_levels(rt, alloc, options, input, sink, gate),
    }
}
