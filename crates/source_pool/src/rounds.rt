ghost use Rattle.std.specs.Prelude.{◌≡◌, ◌≢◌, ◌+◌, ◌<◌, ◌≤◌, ◌^◌, [], None, true, false, ℕ, List, IsTrue, IfOk, IfErr, OnErr, OnOk};
ghost use Rattle.cell_store.specs.Values.{values_of};
ghost use Rattle.app_laws.specs.Applications.{PathsAreIgnored};
ghost use Rattle.run_laws.specs.Events.{drainable};
ghost use Rattle.run_laws.specs.Progress.{Progress};
ghost use Rattle.run_laws.specs.Rest.{NoneRuns};
ghost use Rattle.outer_edge.specs.Transfers.{transfer_of};
ghost use Rattle.output_log.specs.Entries.{with_texts};
ghost use Rattle.source_pool.specs.Course.{RunPoint};
ghost use Rattle.source_pool.specs.Legs.{BeginsAtRest};
ghost use Rattle.source_pool.specs.Round.{BeginsRound, IsRoundFault, IsRoundPlayed};
ghost use Rattle.source_pool.specs.Runs.{IsRoundsEnd, IsRunFault};
ghost use Rattle.source_pool.specs.Streams.{IsCutShort, IsFitFlow, IsFlow, IsOnLeg, IsToldEnd};
ghost use Rattle.text_outlet.specs.Sending.{TellsMore, TellsOn};

use crate::acting::act_round;
use crate::claiming::Picks;
use crate::draining::tell;
use crate::finishing::end_all;
use crate::laws::{draining_laws, drawing_laws, ending_laws, kept_laws, leg_laws, rounds_laws};
use crate::performing::perform_round;
use crate::round_lists::RoundLists;
use crate::staffing::staffed_rounds;
use crate::{Flow, RunFault};
use app_laws::{App, Finals, new_paths_pay};
use graph_update::Engine;
use kdg_text::Steps;
use outer_edge::{Gate, Sink};
use run_laws::rest_laws;
use std::alloc::Global;
use std::sync::ledger::{Blank, Ledger};
use std::thread::Threads;
use text_outlet::{Outlet, TextSink};

/// Runs an execution to its end in rounds, and counts them: all tasks that are clear are claimed and
/// performed, each by its worker, and then ended in the order of their keys. Only rounds with a task are
/// counted.
///
/// Worker 0 claims, and the gate chooses for it at each turn, counted from 0; job number `i` of a
/// round is worker `i mod workers`'s. But where the gate is open, so that nobody sees it, no choice is
/// asked for: tasks are claimed in the order of their keys, and each worker performs as many as come next;
/// where no thread is likely to start they are claimed, performed and ended one after the other. Where the application ignores paths too, pending tasks may get shorter ones between
/// two rounds; a gate that isn't open is passed by each task under the key that it began with. What was
/// handed in is dropped after a fault.
pub fn run_rounds<'a, R: Threads + Sync, A: App + Sync, G: Gate + Sync>(
    rt: &R,
    alloc: Global,
    engine: Engine<'a, A>,
    gate: &G,
    seed: u64,
    workers: u32,
) -> Result<(Finals<A::Val>, u64), RunFault>
    requires workers { (1 ≤ workers) × (workers ≤ 64) }
    requires at_rest { NoneRuns engine.progress.nodes }
    requires not_over { engine.progress.over ≡ None }
    ensures end { IfOk result (λ run. IsRoundsEnd (A.meaning engine.entry.app) engine.entry.progress run.0 run.1) }
    ensures fit { IfOk result (λ run. (A.meaning engine.entry.app).is_fit_cells (values_of run.0.store)) }
    ensures fault { IfErr result (IsRunFault (A.meaning engine.entry.app) engine.entry.progress) }
{
    let mut sink = TextSink::new(alloc);
    match rounds_to(rt, alloc, engine, gate, seed, workers, &mut sink) {
        Flow::Ended {
            mut finals,
            rounds,
            failed: false,
        } => {
            finals.text = sink.into_text();
            Ok((finals, rounds))
        }
        Flow::Budget { created, limit, .. } => Err(RunFault::Budget { created, limit }),
        Flow::Ended { failed: true, .. } | Flow::NoRoom => Err(RunFault::NoRoom),
    }
}

/// `run_rounds`, where the text goes to a sink while the run goes on: at its start and after each round
/// that of the ended tasks that come before every pending one, in the order of their keys. Some of it
/// may be held until a write pays, but no longer than the run. After a write has failed nothing more is
/// written, and the run goes on; what the log has then is left to the finals.
pub fn rounds_to<'a, R: Threads + Sync, A: App + Sync, G: Gate + Sync, K: Sink>(
    rt: &R,
    alloc: Global,
    engine: Engine<'a, A>,
    gate: &G,
    seed: u64,
    workers: u32,
    out: &mut K,
) -> Flow<A::Val>
    requires workers { (1 ≤ workers) × (workers ≤ 64) }
    requires at_rest { NoneRuns engine.progress.nodes }
    requires not_over { engine.progress.over ≡ None }
    ensures flow { IsFlow (A.meaning engine.entry.app) engine.entry.progress (transfer_of K.contents K.faults out.old out.new) result }
    ensures fit { IsFitFlow (A.meaning engine.entry.app) result }
    ensures never_falls { K.faults out.old ≤ K.faults out.new }
    ensures same_room { K.room out.new ≡ K.room out.old }
{
    drawing_laws::<A>();
    kept_laws::<A>();
    rest_laws::<A>();
    // Its contract tells what every engine keeps: the execution is sound.
    let _graph = engine.graph();
    let mut outlet = Outlet::new(alloc);
    let staff = Staff {
        gate,
        seed,
        workers,
    };
    let run = staffed_rounds(rt, alloc, engine, staff, &mut outlet, out);
    match run {
        Ok((finals, rounds)) => {
            outlet.flush(out);
            Flow::Ended {
                finals,
                rounds,
                failed: outlet.has_failed(),
            }
        }
        Err(RunFault::Budget { created, limit }) => {
            outlet.flush(out);
            Flow::Budget {
                created,
                limit,
                failed: outlet.has_failed(),
            }
        }
        Err(RunFault::NoRoom) => Flow::NoRoom,
    }
}

/// Who performs a run's jobs, and what chooses among them.
#[derive(Drop)]
pub(crate) struct Staff<'g, G: Gate> {
    pub(crate) gate: &'g G,
    pub(crate) seed: u64,
    pub(crate) workers: u32,
}

/// The rounds from one at whose beginning nothing runs, with a count of the sets that are asked for.
/// Before each leg but the first the pending tasks get short paths.
pub(crate) fn counted_rounds<
    'a,
    R: Threads + Sync,
    A: App + Sync,
    G: Gate + Sync,
    K: Sink,
    L: Ledger,
>(
    rt: &R,
    lists: &mut RoundLists<A>,
    mut engine: Engine<'a, A>,
    staff: Staff<'_, G>,
    outlet: &mut Outlet,
    out: &mut K,
    blank: Blank,
) -> Result<(Finals<A::Val>, u64), RunFault>
    ghost start: { Progress A.Val }
    requires name { blank.name ≡ L.name }
    requires parts { blank.parts ≡ L.parts }
    requires some { 0 < blank.parts }
    requires workers { 1 ≤ staff.workers }
    requires rest { BeginsAtRest (A.meaning engine.app) start }
    requires begins { engine.progress ≡ start }
    requires limited { start.limit < 2 ^ 64 }
    requires no_fault { outlet.old.has_failed ≡ false }
    requires partners { lists.old.partners ≡ engine.app }
    ensures end { IfOk result (λ run. (told : List ℕ) × TellsMore K.contents K.faults outlet.old out.old outlet.new out.new told × IsToldEnd (A.meaning engine.entry.app) start outlet.new.has_failed told run.0 run.1) }
    ensures fit { IfOk result (λ run. (A.meaning engine.entry.app).is_fit_cells (values_of run.0.store)) }
    ensures fault { IfErr result (IsRunFault (A.meaning engine.entry.app) start) }
    ensures cut { IfErr result (λ why. (told : List ℕ) × TellsMore K.contents K.faults outlet.old out.old outlet.new out.new told × IsCutShort (A.meaning engine.entry.app) start outlet.new.has_failed told why) }
    ensures same_room { K.room out.new ≡ K.room out.old }
{
    drawing_laws::<A>();
    leg_laws::<A>();
    rest_laws::<A>();
    rounds_laws::<A>();
    let mut steps = Steps::<L>::new(blank);
    let mut picks = Picks::new(staff.gate, staff.seed);
    let mut rounds = 0u64;
    loop {
        rounds += play_leg(
            rt,
            &mut engine,
            &mut picks,
            staff.workers,
            lists,
            &mut steps,
            outlet,
            out,
        )?;
        if engine.graph().least().is_none() {
            break;
        }
        engine = engine.renamed(&mut steps)?;
    }
    let finals = engine.end()?;
    Ok((finals, rounds))
}

/// Plays a leg of an execution in which nothing runs: rounds until no task is pending, or until the
/// paths are to be short again. What comes before every pending task is told at its start and after each
/// round. The answer is the number of rounds.
fn play_leg<R: Threads + Sync, A: App + Sync, G: Gate + Sync, K: Sink, L: Ledger>(
    rt: &R,
    engine: &mut Engine<'_, A>,
    picks: &mut Picks<'_, G>,
    workers: u32,
    lists: &mut RoundLists<A>,
    steps: &mut Steps<L>,
    outlet: &mut Outlet,
    out: &mut K,
) -> Result<u64, RunFault>
    ghost start: { Progress A.Val }
    requires workers { 1 ≤ workers }
    requires rest { BeginsAtRest (A.meaning engine.old.app) start }
    requires begins { engine.old.progress ≡ start }
    requires limited { start.limit < 2 ^ 64 }
    requires none_left { outlet.old.has_failed ≡ true → start.log ≡ [] }
    requires partners { lists.old.partners ≡ engine.old.app }
    ensures app { engine.new.app ≡ engine.old.app }
    ensures partners { lists.new.partners ≡ lists.old.partners }
    ensures leg { IfOk result (λ rounds. IsOnLeg (A.meaning engine.old.app) start outlet.new.has_failed rounds engine.new.progress outlet.new.told) }
    ensures ignored { OnOk result (engine.new.progress.nodes ≢ [] → PathsAreIgnored (A.meaning engine.old.app)) }
    ensures silent { OnOk result (engine.new.progress.nodes ≢ [] → with_texts engine.new.progress.log ≡ []) }
    ensures ended { IfOk result (λ rounds. start.ended + rounds ≤ engine.new.progress.ended) }
    ensures some_round { IfOk result (λ rounds. engine.new.progress.nodes ≢ [] → 0 < rounds) }
    ensures fault { IfErr result (IsRunFault (A.meaning engine.old.app) start) }
    ensures cut { IfErr result (IsCutShort (A.meaning engine.old.app) start outlet.new.has_failed outlet.new.told) }
    ensures tells { TellsMore K.contents K.faults outlet.old out.old outlet.new out.new outlet.new.told }
    ensures same_room { K.room out.new ≡ K.room out.old }
{
    rounds_laws::<A>();
    draining_laws::<A>();
    kept_laws::<A>();
    let ended = engine.ended();
    outlet.begin_leg();
    tell(engine, outlet, out, false)?;
    let mut rounds = 0u64;
    while engine.graph().least().is_some() {
        play_round(rt, engine, picks, workers, lists, steps, outlet, out)?;
        rounds += 1;
        if needs_new_paths(engine, picks.gate(), ended) {
            return Ok(rounds);
        }
    }
    Ok(rounds)
}

/// Whether pending tasks are to get new paths in a leg that began when `ended` tasks had ended. So it
/// is only where nobody sees a path: the application ignores them, and the gate is open. Then enough
/// tasks have ended since that new paths take little beside them, the earliest one's path is long, and
/// no text is logged that waits for a task.
fn needs_new_paths<A: App, G: Gate>(engine: &Engine<'_, A>, gate: &G, ended: u64) -> bool
    ensures ignored { IsTrue result → PathsAreIgnored (A.meaning engine.now.app) }
    ensures silent { IsTrue result → with_texts engine.now.progress.log ≡ [] }
{
    if !(gate.is_open() && engine.app().ignores_paths()) {
        return false;
    }
    match engine.graph().least() {
        Some(least) => {
            new_paths_pay(engine.ended().saturating_sub(ended), engine.graph().len())
                && engine.graph().task(least).key.path.is_long()
                && engine.is_silent()
        }
        None => false,
    }
}

/// Plays one round of an execution in which nothing runs: all clear tasks act or end, and then what comes
/// before every pending task is told. Whatever is in the lists is dropped.
fn play_round<R: Threads + Sync, A: App + Sync, G: Gate + Sync, K: Sink, L: Ledger>(
    rt: &R,
    engine: &mut Engine<'_, A>,
    picks: &mut Picks<'_, G>,
    workers: u32,
    lists: &mut RoundLists<A>,
    steps: &mut Steps<L>,
    outlet: &mut Outlet,
    out: &mut K,
) -> Result<(), RunFault>
    ghost from: { RunPoint A.Val }
    requires workers { 1 ≤ workers }
    requires begins { BeginsRound (A.meaning engine.old.app) from engine.old.progress }
    requires text { outlet.old.told ≡ from.text }
    requires partners { lists.old.partners ≡ engine.old.app }
    ensures app { engine.new.app ≡ engine.old.app }
    ensures partners { lists.new.partners ≡ lists.old.partners }
    ensures played { OnOk result (IsRoundPlayed (A.meaning engine.old.app) from outlet.new.told engine.old.progress engine.new.progress) }
    ensures fault { IfErr result (IsRoundFault (A.meaning engine.old.app) from engine.old.progress) }
    ensures drained { OnOk result (outlet.old.has_failed ≡ false → drainable (A.meaning engine.old.app) engine.new.progress.nodes engine.new.progress.log ≡ []) }
    ensures same { outlet.old.has_failed ≡ true → outlet.new.told ≡ outlet.old.told }
    ensures told { OnOk result (TellsOn K.contents K.faults outlet.old out.old outlet.new out.new) }
    ensures nothing_told { OnErr result ((outlet.new ≡ outlet.old) × (out.new ≡ out.old)) }
    ensures stays { outlet.old.has_failed ≡ true → outlet.new.has_failed ≡ true }
    ensures same_room { K.room out.new ≡ K.room out.old }
{
    draining_laws::<A>();
    act_or_perform(rt, engine, picks, workers, lists, steps)?;
    tell(engine, outlet, out, !lists.work.tasks_are_light())?;
    Ok(())
}

/// Plays one round of an execution in which nothing runs, but for its text: draws the jobs of all clear tasks, has
/// them performed, and ends them in the order of their keys. Where no thread is likely to start and
/// the gate is open, they act one after the other, which comes to the same. Whatever is in the lists is
/// dropped.
fn act_or_perform<R: Threads + Sync, A: App + Sync, G: Gate + Sync, L: Ledger>(
    rt: &R,
    engine: &mut Engine<'_, A>,
    picks: &mut Picks<'_, G>,
    workers: u32,
    lists: &mut RoundLists<A>,
    steps: &mut Steps<L>,
) -> Result<(), RunFault>
    ghost from: { RunPoint A.Val }
    requires workers { 1 ≤ workers }
    requires begins { BeginsRound (A.meaning engine.old.app) from engine.old.progress }
    requires partners { lists.old.partners ≡ engine.old.app }
    ensures app { engine.new.app ≡ engine.old.app }
    ensures partners { lists.new.partners ≡ lists.old.partners }
    ensures played { OnOk result (IsRoundPlayed (A.meaning engine.old.app) from from.text engine.old.progress engine.new.progress) }
    ensures fault { IfErr result (IsRoundFault (A.meaning engine.old.app) from engine.old.progress) }
{
    if picks.gate().is_open() && lists.work.stays_alone(workers) {
        act_round(engine, lists, steps)
    } else if picks.gate().is_open() && lists.partners.desks() > 0 {
        play_with_partners(engine, picks.gate(), lists, steps)
    } else {
        perform_and_end(rt, engine, picks, workers, lists, steps)
    }
}

/// `act_or_perform`, where all jobs are drawn before one is performed, and performed before one ends.
fn perform_and_end<R: Threads + Sync, A: App + Sync, G: Gate + Sync, L: Ledger>(
    rt: &R,
    engine: &mut Engine<'_, A>,
    picks: &mut Picks<'_, G>,
    workers: u32,
    lists: &mut RoundLists<A>,
    steps: &mut Steps<L>,
) -> Result<(), RunFault>
    ghost from: { RunPoint A.Val }
    requires workers { 1 ≤ workers }
    requires begins { BeginsRound (A.meaning engine.old.app) from engine.old.progress }
    requires partners { lists.old.partners ≡ engine.old.app }
    ensures app { engine.new.app ≡ engine.old.app }
    ensures partners { lists.new.partners ≡ lists.old.partners }
    ensures played { OnOk result (IsRoundPlayed (A.meaning engine.old.app) from from.text engine.old.progress engine.new.progress) }
    ensures fault { IfErr result (IsRoundFault (A.meaning engine.old.app) from engine.old.progress) }
{
    ending_laws::<A>();
    perform_round(rt, engine, picks, workers, lists)?;
    end_all(engine, &mut lists.dones, steps)
}

/// `act_or_perform` at an open gate, where workers are kept: they get as much at each desk as it takes for all clear
/// tasks, if these are worth it.
fn play_with_partners<A: App, G: Gate, L: Ledger>(
    engine: &mut Engine<'_, A>,
    gate: &G,
    lists: &mut RoundLists<A>,
    steps: &mut Steps<L>,
) -> Result<(), RunFault>
    ghost from: { RunPoint A.Val }
    requires begins { BeginsRound (A.meaning engine.old.app) from engine.old.progress }
    requires partners { lists.old.partners ≡ engine.old.app }
    ensures app { engine.new.app ≡ engine.old.app }
    ensures partners { lists.new.partners ≡ lists.old.partners }
    ensures played { OnOk result (IsRoundPlayed (A.meaning engine.old.app) from from.text engine.old.progress engine.new.progress) }
    ensures fault { IfErr result (IsRoundFault (A.meaning engine.old.app) from engine.old.progress) }
{
    // A look, after which all clear tasks are known.
    let _clear = engine.next_clear()?;
    let known = engine.known();
    let each = if lists.work.note_round(known, 0) {
        known.div_ceil(lists.partners.desks().max(1))
    } else {
        0
    };
    lists
        .partners
        .play_round(engine, gate, each, &mut lists.own, steps)
}
