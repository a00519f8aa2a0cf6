//! The command that tells the levels of a graph.

ghost use Rattle.std.specs.Prelude.{◌≡◌, ◌≢◌, IfOk, IfErr, IfSome};
ghost use Rattle.outer_edge.specs.Transfers.{transfer_of};
ghost use Rattle.hook_app.specs.Kept.{DoesDeeds, IsAnswered, IsAsked};
ghost use Rattle.level_walk.specs.Levels.{vertex_sets, walking};
ghost use Rattle.level_walk.specs.Walks.{vertex_count};
ghost use Rattle.kdg_prog.specs.Answer.{search_problem};
ghost use Rattle.kdg_prog.specs.Problem.{answer_by, whole_print};
ghost use Rattle.kdg_prog.specs.Searches.{AnswersLevels};
ghost use Rattle.kdg_prog.specs.Serving.{IsRunServed, IsServedFor, MayLeaveLog};
ghost use Rattle.kdg_prog.specs.Words.{IsAllowed};

use crate::described::walk_for;
use crate::running::{ended_print, serve_free_run, serve_run, write_print};
use crate::{Command, Mode, Options, Status};
use app_laws::Effect;
use cell_store::Bundle;
use hook_app::{Hook, HookApp};
use kdg_text::{NoRoom, Text};
use level_search::search;
use level_walk::{Level, Walk, levels_are_shortest, visit};
use outer_edge::{Gate, Sink};
use std::alloc::Global;
use std::sync::Wait;
use std::thread::Threads;
use task_order::Task;

/// Writes the print for a graph in mode serial, rounds or marks, or tells why there is none.
pub(crate) fn serve_levels<R: Threads + Sync, K: Sink, G: Gate + Sync>(
    rt: &R,
    alloc: Global,
    options: &Options,
    input: Text,
    sink: &mut K,
    gate: &G,
) -> Result<(), Status>
    requires allowed { IsAllowed options.now }
    requires big { options.now.big ≡ 0 }
    requires plain { options.now.mode ≢ Mode.Free }
    ensures served { IsServedFor Command.Levels options.now input (transfer_of K.contents K.faults sink.old sink.new) result }
    ensures levels { IfOk result (λ _. AnswersLevels options.now input) }
    ensures no_write { IfErr result (λ answer. answer ≢ Status.WriteFault → ¬ MayLeaveLog options.now answer → sink.new ≡ sink.old) }
    ensures same_room { K.room sink.new ≡ K.room sink.old }
{
    levels_are_shortest();
    let walk = walk_for(alloc, options, input)?;
    let graph = &walk;
    let act = |task: &Task, bundle: Bundle<Level>| -> Result<Effect<Level>, Bundle<Level>>
        requires { IsAsked (walking graph.now.pattern) (vertex_sets (vertex_count graph.now.pattern)) task.now bundle }
        ensures { IsAnswered (walking graph.entry.now.pattern) (vertex_sets (vertex_count graph.entry.now.pattern)) task.now bundle result }
    { visit(graph, task, bundle) };
    serve_levels_by(rt, alloc, options, graph, act, sink, gate)
}

/// Writes the print in mode serial, rounds or marks, by an operator that does the deed of the search.
fn serve_levels_by<R: Threads + Sync, H: Hook<Level> + Sync, K: Sink, G: Gate + Sync>(
    rt: &R,
    alloc: Global,
    options: &Options,
    walk: &Walk,
    hook: H,
    sink: &mut K,
    gate: &G,
) -> Result<(), Status>
    requires allowed { IsAllowed options.now }
    requires plain { options.now.mode ≢ Mode.Free }
    requires does { DoesDeeds (walking walk.now.pattern) (vertex_sets (vertex_count walk.now.pattern)) (H.may hook) (H.gives hook) }
    ensures served { IsRunServed options.now (search_problem walk.now) (transfer_of K.contents K.faults sink.old sink.new) result }
    ensures no_write { IfErr result (λ answer. answer ≢ Status.WriteFault → ¬ MayLeaveLog options.now answer → sink.new ≡ sink.old) }
    ensures same_room { K.room sink.new ≡ K.room sink.old }
{
    let app = HookApp::new(walk, walk.count(), walk.sets()?, 1, hook);
    match searched_print(alloc, options, &app, gate)? {
        Some(print) => write_print(sink, Ok(print)),
        None => serve_run(rt, alloc, options, &app, sink, gate),
    }
}

/// `serve_levels` in mode free.
pub(crate) fn serve_free_levels<R: Threads + Wait + Sync, K: Sink, G: Gate + Sync>(
    rt: &R,
    alloc: Global,
    options: &Options,
    input: Text,
    sink: &mut K,
    gate: &G,
) -> Result<(), Status>
    requires allowed { IsAllowed options.now }
    requires big { options.now.big ≡ 0 }
    requires mode { options.now.mode ≡ Mode.Free }
    ensures served { IsServedFor Command.Levels options.now input (transfer_of K.contents K.faults sink.old sink.new) result }
    ensures levels { IfOk result (λ _. AnswersLevels options.now input) }
    ensures no_write { IfErr result (λ answer. answer ≢ Status.WriteFault → ¬ MayLeaveLog options.now answer → sink.new ≡ sink.old) }
    ensures same_room { K.room sink.new ≡ K.room sink.old }
{
    levels_are_shortest();
    let walk = walk_for(alloc, options, input)?;
    let graph = &walk;
    let act = |task: &Task, bundle: Bundle<Level>| -> Result<Effect<Level>, Bundle<Level>>
        requires { IsAsked (walking graph.now.pattern) (vertex_sets (vertex_count graph.now.pattern)) task.now bundle }
        ensures { IsAnswered (walking graph.entry.now.pattern) (vertex_sets (vertex_count graph.entry.now.pattern)) task.now bundle result }
    { visit(graph, task, bundle) };
    serve_free_levels_by(rt, alloc, options, graph, act, sink, gate)
}

/// Writes the print in mode free, by an operator that does the deed of the search.
fn serve_free_levels_by<R: Threads + Wait + Sync, H: Hook<Level> + Sync, K: Sink, G: Gate + Sync>(
    rt: &R,
    alloc: Global,
    options: &Options,
    walk: &Walk,
    hook: H,
    sink: &mut K,
    gate: &G,
) -> Result<(), Status>
    requires allowed { IsAllowed options.now }
    requires mode { options.now.mode ≡ Mode.Free }
    requires does { DoesDeeds (walking walk.now.pattern) (vertex_sets (vertex_count walk.now.pattern)) (H.may hook) (H.gives hook) }
    ensures served { IsRunServed options.now (search_problem walk.now) (transfer_of K.contents K.faults sink.old sink.new) result }
    ensures no_write { IfErr result (λ answer. answer ≢ Status.WriteFault → ¬ MayLeaveLog options.now answer → sink.new ≡ sink.old) }
    ensures same_room { K.room sink.new ≡ K.room sink.old }
{
    let app = HookApp::new(walk, walk.count(), walk.sets()?, 1, hook);
    match searched_print(alloc, options, &app, gate)? {
        Some(print) => write_print(sink, Ok(print)),
        None => serve_free_run(rt, alloc, options, &app, sink, gate),
    }
}

/// The print of a search without tasks. There is none where the gate is to let tasks pass, or where they would
/// be more than the budget.
fn searched_print<H: Hook<Level> + Sync, G: Gate>(
    alloc: Global,
    options: &Options,
    app: &HookApp<'_, Walk, H>,
    gate: &G,
) -> Result<Option<Text>, NoRoom>
    requires allowed { IsAllowed options.now }
    requires cells { app.now.cells ≡ vertex_count app.now.deed.pattern }
    requires sets { app.now.sets ≡ vertex_sets (vertex_count app.now.deed.pattern) }
    requires ahead { app.now.ahead ≡ 1 }
    ensures { IfOk result (λ print. IfSome print (λ bytes. answer_by options.now (search_problem app.now.deed) ≡ whole_print bytes)) }
{
    if !gate.is_open() {
        return Ok(None);
    }
    match search(alloc, app.deed(), options.budget)? {
        Some((finals, rounds)) => {
            let print = ended_print(alloc, options, app, finals, rounds)?;
            Ok(Some(print))
        }
        None => Ok(None),
    }
}
