ghost use Rattle.std.specs.Prelude.{◌≡◌, ◌≢◌, ◌++◌, IfOk, IfErr, OnOk, true, false};
ghost use Rattle.outer_edge.specs.Transfers.{transfer_of};
ghost use Rattle.cell_store.specs.Values.{AreAllHome, values_of};
ghost use Rattle.app_laws.specs.Applications.{AreFitStarts};
ghost use Rattle.list_rounds.specs.Rounds.{start_state};
ghost use Rattle.list_rounds.specs.Runs.{IsRoundsEnd};
ghost use Rattle.kdg_prog.specs.Problem.{MayStream, answer_by, figure_line, is_in_rounds, line_count, made_from, print_of_finals, problem_of, rounds_shown, rounds_text, text_shown, whole_print};
ghost use Rattle.kdg_prog.specs.Refusals.{IsAtStart, IsRunRefusal};
ghost use Rattle.kdg_prog.specs.Serving.{IsHomeFlow, IsRunServed, IsStreamed, IsWritten, MayLeaveLog};
ghost use Rattle.kdg_prog.specs.Starts.{IsStarted};
ghost use Rattle.kdg_prog.specs.Words.{IsAllowed};

use crate::laws::round_count_laws;
use crate::problem::Runnable;
use crate::{Mode, Options, Status};
use app_laws::{App, Finals, execution_laws, orderly_laws, serial};
use cell_store::value_laws;
use commuting::{round_laws, standing_laws};
use free_pool::{free_to, run_free};
use graph_update::Engine;
use kdg_text::{NoRoom, Text, push_u64};
use mark_rounds::run_marks;
use outer_edge::{Gate, Sink, write_whole};
use output_log::join_laws;
use resting_rounds::run_resting;
use resting_tasks::{Resting, rest_laws};
use source_pool::{Flow, rounds_to, run_rounds};
use std::alloc::Global;
use std::sync::Wait;
use std::thread::Threads;
use task_order::put_in_laws;

/// Runs an application in mode serial, rounds or marks, and writes the print, or tells why there is none. In
/// rounds the log goes out while the run goes on, unless only its figures are asked for.
pub(crate) fn serve_run<R: Threads + Sync, A: Runnable, K: Sink, G: Gate + Sync>(
    rt: &R,
    alloc: Global,
    options: &Options,
    app: &A,
    sink: &mut K,
    gate: &G,
) -> Result<(), Status>
    requires allowed { IsAllowed options.now }
    requires plain { options.now.mode ≢ Mode.Free }
    ensures served { IsRunServed options.now (problem_of (A.meaning app.now) (A.setting app.now)) (transfer_of K.contents K.faults sink.old sink.new) result }
    ensures no_write { IfErr result (λ answer. answer ≢ Status.WriteFault → ¬ MayLeaveLog options.now answer → sink.new ≡ sink.old) }
    ensures same_room { K.room sink.new ≡ K.room sink.old }
{
    check_start(options, app)?;
    if may_stream(options) {
        return stream_rounds(rt, alloc, options, app, sink, gate);
    }
    write_print(sink, print_of_run(rt, alloc, options, app, gate))
}

/// `serve_run` in mode free. The log goes out while the run goes on, unless only its figures are asked for.
pub(crate) fn serve_free_run<R: Threads + Wait + Sync, A: Runnable, K: Sink, G: Gate + Sync>(
    rt: &R,
    alloc: Global,
    options: &Options,
    app: &A,
    sink: &mut K,
    gate: &G,
) -> Result<(), Status>
    requires allowed { IsAllowed options.now }
    requires mode { options.now.mode ≡ Mode.Free }
    ensures served { IsRunServed options.now (problem_of (A.meaning app.now) (A.setting app.now)) (transfer_of K.contents K.faults sink.old sink.new) result }
    ensures no_write { IfErr result (λ answer. answer ≢ Status.WriteFault → ¬ MayLeaveLog options.now answer → sink.new ≡ sink.old) }
    ensures same_room { K.room sink.new ≡ K.room sink.old }
{
    check_start(options, app)?;
    if may_stream(options) {
        return stream_free(rt, alloc, options, app, sink, gate);
    }
    write_print(sink, free_print(rt, alloc, options, app, gate))
}

/// Whether the log may go out while the run goes on.
fn may_stream(options: &Options) -> bool
    ensures yes { result ≡ true → MayStream options.now }
    ensures no { result ≡ false → ¬ MayStream options.now }
{
    match options.mode {
        Mode::Rounds | Mode::Free => options.big == 0,
        Mode::Serial | Mode::Marks => false,
    }
}

/// Writes a print whole, unless there is none, or a write fails.
pub(crate) fn write_print<K: Sink>(sink: &mut K, print: Result<Text, Status>) -> Result<(), Status>
    ensures written { IsWritten print (transfer_of K.contents K.faults sink.old sink.new) result }
    ensures no_write { IfErr print (λ _. sink.new ≡ sink.old) }
    ensures same_room { K.room sink.new ≡ K.room sink.old }
{
    match print {
        Ok(print) => match write_whole(sink, print.bytes()) {
            Ok(()) => Ok(()),
            Err(_) => Err(Status::WriteFault),
        },
        Err(refusal) => Err(refusal),
    }
}

/// Runs an application in rounds. The log goes to the sink while the run goes on, and the rest of the print
/// behind it. After a failed write nothing more is written, and the run goes on: it may be over the budget.
fn stream_rounds<R: Threads + Sync, A: Runnable, K: Sink, G: Gate + Sync>(
    rt: &R,
    alloc: Global,
    options: &Options,
    app: &A,
    sink: &mut K,
    gate: &G,
) -> Result<(), Status>
    requires allowed { IsAllowed options.now }
    requires streams { MayStream options.now }
    ensures served { IsRunServed options.now (problem_of (A.meaning app.now) (A.setting app.now)) (transfer_of K.contents K.faults sink.old sink.new) result }
    ensures no_write { IfErr result (λ answer. answer ≢ Status.WriteFault → ¬ MayLeaveLog options.now answer → sink.new ≡ sink.old) }
    ensures same_room { K.room sink.new ≡ K.room sink.old }
{
    value_laws::<A::Val>();
    orderly_laws::<A>();
    join_laws();
    round_laws::<A>();
    standing_laws::<A>();
    round_count_laws::<A>();
    let engine = start_run(alloc, options, app)?;
    let flow = rounds_to(rt, alloc, engine, gate, options.seed, options.workers, sink);
    end_stream(alloc, options, app, flow, sink)
}

/// Runs an application in mode free. The log goes to the sink while the run goes on, and the rest of the print
/// behind it. After a failed write nothing more is written, and the run goes on: it may be over the budget.
fn stream_free<R: Threads + Wait + Sync, A: Runnable, K: Sink, G: Gate + Sync>(
    rt: &R,
    alloc: Global,
    options: &Options,
    app: &A,
    sink: &mut K,
    gate: &G,
) -> Result<(), Status>
    requires allowed { IsAllowed options.now }
    requires streams { MayStream options.now }
    requires mode { options.now.mode ≡ Mode.Free }
    ensures served { IsRunServed options.now (problem_of (A.meaning app.now) (A.setting app.now)) (transfer_of K.contents K.faults sink.old sink.new) result }
    ensures no_write { IfErr result (λ answer. answer ≢ Status.WriteFault → ¬ MayLeaveLog options.now answer → sink.new ≡ sink.old) }
    ensures same_room { K.room sink.new ≡ K.room sink.old }
{
    value_laws::<A::Val>();
    orderly_laws::<A>();
    join_laws();
    let engine = start_run(alloc, options, app)?;
    let flow = free_to(rt, alloc, engine, gate, options.seed, options.workers, sink);
    end_stream(alloc, options, app, flow, sink)
}

/// Ends a run whose log has gone out: the rest of the print is written behind it, once it is made whole.
fn end_stream<A: Runnable, K: Sink>(
    alloc: Global,
    options: &Options,
    app: &A,
    flow: Flow<A::Val>,
    sink: &mut K,
) -> Result<(), Status>
    requires streams { MayStream options.now }
    requires home { IsHomeFlow (A.meaning app.now) flow }
    ensures served { (begin : K) → IsStreamed options.now (problem_of (A.meaning app.now) (A.setting app.now)) (transfer_of K.contents K.faults begin sink.old) flow → IsRunServed options.now (problem_of (A.meaning app.now) (A.setting app.now)) (transfer_of K.contents K.faults begin sink.new) result }
    ensures may_leave { IfErr result (λ answer. answer ≢ Status.WriteFault → MayLeaveLog options.now answer) }
    ensures same_room { K.room sink.new ≡ K.room sink.old }
{
    value_laws::<A::Val>();
    execution_laws::<A::Val>();
    match flow {
        Flow::Ended {
            finals,
            rounds,
            failed: false,
        } => {
            let told = rounds_shown(options, rounds);
            let rest = finals_print(alloc, options, app, finals, told)?;
            write_print(sink, Ok(rest))
        }
        Flow::Ended { failed: true, .. } => Err(Status::WriteFault),
        Flow::Budget { created, limit, .. } => Err(Status::Budget { created, limit }),
        Flow::NoRoom => Err(Status::NoMemory),
    }
}

/// Runs an application in mode serial, rounds or marks, and gives the print, or why there is none.
fn print_of_run<R: Threads + Sync, A: Runnable, G: Gate + Sync>(
    rt: &R,
    alloc: Global,
    options: &Options,
    app: &A,
    gate: &G,
) -> Result<Text, Status>
    requires allowed { IsAllowed options.now }
    requires plain { options.now.mode ≢ Mode.Free }
    ensures print { IfOk result (λ bytes. answer_by options.now (problem_of (A.meaning app.now) (A.setting app.now)) ≡ whole_print bytes) }
    ensures refusal { IfErr result (IsRunRefusal options.now (problem_of (A.meaning app.now) (A.setting app.now))) }
{
    match options.mode {
        Mode::Serial => serial_print(alloc, options, app),
        Mode::Rounds => rounds_print(rt, alloc, options, app, gate),
        Mode::Marks => marks_print(alloc, options, app, gate),
        Mode::Free => unreachable!(),
    }
}

/// Refuses a run whose start has more tasks than the budget, where it pays to know that early.
fn check_start<A: Runnable>(options: &Options, app: &A) -> Result<(), Status>
    ensures refusal { IfErr result (IsRunRefusal options.now (problem_of (A.meaning app.now) (A.setting app.now))) }
    ensures at_start { IfErr result (IsAtStart options.now (problem_of (A.meaning app.now) (A.setting app.now))) }
{
    execution_laws::<A::Val>();
    put_in_laws();
    let limit = options.budget;
    match app.too_many_tasks(limit) {
        Some(created) => Err(Status::Budget { created, limit }),
        None => Ok(()),
    }
}

/// The print of a run of always the earliest pending task.
fn serial_print<A: Runnable>(alloc: Global, options: &Options, app: &A) -> Result<Text, Status>
    requires allowed { IsAllowed options.now }
    requires mode { options.now.mode ≡ Mode.Serial }
    ensures print { IfOk result (λ bytes. answer_by options.now (problem_of (A.meaning app.now) (A.setting app.now)) ≡ whole_print bytes) }
    ensures refusal { IfErr result (IsRunRefusal options.now (problem_of (A.meaning app.now) (A.setting app.now))) }
{
    value_laws::<A::Val>();
    let cells = app.start_cells()?;
    let tasks = app.start_tasks()?;
    let finals = serial(alloc, app, cells, tasks, options.budget)?;
    Ok(finals_print(alloc, options, app, finals, None)?)
}

/// An engine at the start of a run, or why there is none.
fn start_run<'a, A: Runnable>(
    alloc: Global,
    options: &Options,
    app: &'a A,
) -> Result<Engine<'a, A>, Status>
    requires { IsAllowed options.now }
    ensures started { IfOk result (λ engine. IsStarted options.now (A.meaning app.now) (A.setting app.now) engine.progress) }
    ensures app { IfOk result (λ engine. engine.app ≡ app.now) }
    ensures refusal { IfErr result (IsRunRefusal options.now (problem_of (A.meaning app.now) (A.setting app.now))) }
    ensures at_start { IfErr result (IsAtStart options.now (problem_of (A.meaning app.now) (A.setting app.now))) }
{
    execution_laws::<A::Val>();
    put_in_laws();
    let cells = app.start_cells()?;
    let tasks = app.start_tasks()?;
    Ok(Engine::begin_uncounted(alloc, app, cells, tasks, options.budget)?)
}

/// The print of a run in rounds.
fn rounds_print<R: Threads + Sync, A: Runnable, G: Gate + Sync>(
    rt: &R,
    alloc: Global,
    options: &Options,
    app: &A,
    gate: &G,
) -> Result<Text, Status>
    requires allowed { IsAllowed options.now }
    requires mode { options.now.mode ≡ Mode.Rounds }
    ensures print { IfOk result (λ bytes. answer_by options.now (problem_of (A.meaning app.now) (A.setting app.now)) ≡ whole_print bytes) }
    ensures refusal { IfErr result (IsRunRefusal options.now (problem_of (A.meaning app.now) (A.setting app.now))) }
{
    value_laws::<A::Val>();
    orderly_laws::<A>();
    join_laws();
    round_laws::<A>();
    standing_laws::<A>();
    round_count_laws::<A>();
    let engine = start_run(alloc, options, app)?;
    let (finals, rounds) = run_rounds(rt, alloc, engine, gate, options.seed, options.workers)?;
    let told = rounds_shown(options, rounds);
    Ok(finals_print(alloc, options, app, finals, told)?)
}

/// The print of a run in rounds that are found by marks.
fn marks_print<A: Runnable, G: Gate>(
    alloc: Global,
    options: &Options,
    app: &A,
    gate: &G,
) -> Result<Text, Status>
    requires allowed { IsAllowed options.now }
    requires mode { options.now.mode ≡ Mode.Marks }
    ensures print { IfOk result (λ bytes. answer_by options.now (problem_of (A.meaning app.now) (A.setting app.now)) ≡ whole_print bytes) }
    ensures refusal { IfErr result (IsRunRefusal options.now (problem_of (A.meaning app.now) (A.setting app.now))) }
{
    let cells = app.start_cells()?;
    let tasks = app.start_tasks()?;
    let budget = options.budget;
    let (finals, rounds) = run_marks(alloc, app, cells, tasks, budget, gate, options.workers)?;
    Ok(ended_print(alloc, options, app, finals, rounds)?)
}

/// The print of a run in rounds whose pending tasks rest, which needs neither a graph nor a board.
pub(crate) fn resting_print<A: Runnable + Resting, G: Gate>(
    alloc: Global,
    options: &Options,
    app: &A,
    gate: &G,
) -> Result<Text, Status>
    requires allowed { IsAllowed options.now }
    requires mode { is_in_rounds options.now.mode ≡ true }
    ensures print { IfOk result (λ bytes. answer_by options.now (problem_of (A.meaning app.now) (A.setting app.now)) ≡ whole_print bytes) }
    ensures refusal { IfErr result (IsRunRefusal options.now (problem_of (A.meaning app.now) (A.setting app.now))) }
    ensures at_start { IfErr result (IsAtStart options.now (problem_of (A.meaning app.now) (A.setting app.now))) }
{
    execution_laws::<A::Val>();
    orderly_laws::<A>();
    put_in_laws();
    rest_laws::<A>();
    let cells = app.start_cells()?;
    let tasks = app.start_tasks()?;
    let budget = options.budget;
    let (finals, rounds) = run_resting(alloc, app, cells, tasks, budget, gate, options.workers)?;
    Ok(ended_print(alloc, options, app, finals, rounds)?)
}

/// The print of a run that has ended, whose tasks act in that many rounds.
pub(crate) fn ended_print<A: Runnable>(
    alloc: Global,
    options: &Options,
    app: &A,
    finals: Finals<A::Val>,
    rounds: u64,
) -> Result<Text, NoRoom>
    requires fit_cells { (A.meaning app.now).is_fit_cells (A.setting app.now).cells }
    requires fit_tasks { AreFitStarts (A.meaning app.now) (A.setting app.now).tasks }
    requires end { IsRoundsEnd (A.meaning app.now) (start_state (A.setting app.now).cells (A.setting app.now).tasks) options.now.budget finals rounds }
    requires fit { (A.meaning app.now).is_fit_cells (values_of finals.store) }
    ensures { IfOk result (λ bytes. answer_by options.now (problem_of (A.meaning app.now) (A.setting app.now)) ≡ whole_print bytes) }
{
    value_laws::<A::Val>();
    round_laws::<A>();
    standing_laws::<A>();
    round_count_laws::<A>();
    let told = rounds_shown(options, rounds);
    finals_print(alloc, options, app, finals, told)
}

/// The print of a run in mode free.
fn free_print<R: Threads + Wait + Sync, A: Runnable, G: Gate + Sync>(
    rt: &R,
    alloc: Global,
    options: &Options,
    app: &A,
    gate: &G,
) -> Result<Text, Status>
    requires allowed { IsAllowed options.now }
    requires mode { options.now.mode ≡ Mode.Free }
    ensures print { IfOk result (λ bytes. answer_by options.now (problem_of (A.meaning app.now) (A.setting app.now)) ≡ whole_print bytes) }
    ensures refusal { IfErr result (IsRunRefusal options.now (problem_of (A.meaning app.now) (A.setting app.now))) }
{
    value_laws::<A::Val>();
    orderly_laws::<A>();
    join_laws();
    let engine = start_run(alloc, options, app)?;
    let finals = run_free(rt, alloc, engine, gate, options.seed, options.workers)?;
    Ok(finals_print(alloc, options, app, finals, None)?)
}

/// The number of rounds, where it is told.
fn rounds_shown(options: &Options, rounds: u64) -> Option<u64>
    ensures { result ≡ rounds_shown options.now rounds }
{
    match options.mode {
        Mode::Rounds | Mode::Marks => options.stats.then_some(rounds),
        Mode::Serial | Mode::Free => None,
    }
}

/// The print of a run that has ended: its log, the finals and the number of tasks, or their figures
/// where the input was made from a number; and the number of rounds where it is told.
fn finals_print<A: Runnable>(
    alloc: Global,
    options: &Options,
    app: &A,
    finals: Finals<A::Val>,
    rounds: Option<u64>,
) -> Result<Text, NoRoom>
    requires home { AreAllHome finals.store }
    requires cells { (A.meaning app.now).is_fit_cells (values_of finals.store) }
    ensures { IfOk result (λ bytes. bytes ≡ print_of_finals (problem_of (A.meaning app.now) (A.setting app.now)) options.now rounds finals) }
{
    let Finals {
        store,
        text: log,
        count,
    } = finals;
    let final_text = app.final_text(&store)?;
    let mut text = text_shown(alloc, options, log, &final_text, count)?;
    push_rounds(&mut text, rounds)?;
    Ok(text)
}

/// The log, the finals and the number of tasks, or their figures.
fn text_shown(
    alloc: Global,
    options: &Options,
    log: Text,
    finals: &Text,
    count: u64,
) -> Result<Text, NoRoom>
    ensures { IfOk result (λ text. text ≡ text_shown options.now log finals.now count) }
{
    let lines = line_count(log.bytes());
    let mut whole = log;
    whole.push_all(finals.bytes())?;
    push_figure(&mut whole, b"tasks ", count)?;
    if options.big == 0 {
        return Ok(whole);
    }
    let mut text = Text::new(alloc);
    push_made_from(&mut text, options)?;
    push_figure(&mut text, b"log ", lines as u64)?;
    push_figure(&mut text, b"bytes ", whole.len() as u64)?;
    push_figure(&mut text, b"tasks ", count)?;
    Ok(text)
}

/// How many lines there are, each of which ends with a line feed.
fn line_count(text: &[u8]) -> usize
    ensures { result ≡ line_count text.now }
{
    text.iter().filter(|byte| **byte == b'\n').count()
}

/// Appends what the input was made from.
fn push_made_from(text: &mut Text, options: &Options) -> Result<(), NoRoom>
    ensures { OnOk result (text.new ≡ text.old ++ made_from options.now) }
{
    text.push_all(b"big ")?;
    text.push_all(options.command.word().as_bytes())?;
    push_figure(text, b" ", u64::from(options.big))
}

/// Appends a word and a number.
fn push_figure(text: &mut Text, word: &[u8], number: u64) -> Result<(), NoRoom>
    ensures { OnOk result (text.new ≡ text.old ++ figure_line word.now number) }
{
    text.push_all(word)?;
    push_u64(text, number)?;
    text.push_all(b"\n")
}

/// Appends `rounds N`, where there is a number.
fn push_rounds(text: &mut Text, rounds: Option<u64>) -> Result<(), NoRoom>
    ensures { OnOk result (text.new ≡ text.old ++ rounds_text rounds) }
{
    match rounds {
        Some(rounds) => push_figure(text, b"rounds ", rounds),
        None => Ok(()),
    }
}
