//! How light tasks act within a turn.

ghost use Rattle.std.specs.Prelude.{◌≡◌, ◌≢◌, ◌<◌, ◌++◌, List, [], ◌∷◌, None, Some, vec_capacity, vec_len};
ghost use Rattle.run_laws.specs.Events.{IsOfClear};
ghost use Rattle.run_laws.specs.Jobs.{Job};
ghost use Rattle.run_laws.specs.Moves.{Moved};
ghost use Rattle.worker_gate.specs.Fits.{drained_count};
ghost use Rattle.free_pool.specs.Acted.{IsAct, jobs_stuck, keys_acted};
ghost use Rattle.free_pool.specs.Turns.{AreToPerform, GoesOn, IsAnswer};

use crate::turns::Next;
use app_laws::App;
use graph_update::{Engine, Upcoming};
use kdg_graph::NodeId;
use kdg_graph::laws::node_laws;
use kdg_text::Steps;
use output_log::join_laws;
use run_laws::move_laws;
use std::snapshot::Snapshot;
use std::sync::ledger::Ledger;
use task_order::Key;

/// A task that was claimed to act in a turn, and didn't end. A mark stands then.
#[derive(Drop)]
pub(crate) struct Stuck<E> {
    /// Its node.
    node: NodeId,
    /// The engine before it was claimed, for contracts alone.
    before: Snapshot<E>,
}

/// What came of letting tasks act in a turn.
#[derive(Drop)]
pub(crate) struct Acting<E> {
    pub(crate) next: Next,
    /// The task that didn't end, where one didn't.
    pub(crate) stuck: Option<Stuck<E>>,
}

/// What came of letting the next task act.
#[derive(Drop)]
enum Act<E> {
    /// It has ended.
    Ended,
    /// None was to act, and this is what comes next.
    None(Next),
    /// It didn't end.
    Stuck(Stuck<E>),
}

/// Lets clear tasks act where they are, `most` at most, or until none is clear. `acted` then has the
/// keys of those that acted, for contracts alone.
pub(crate) fn act_tasks<'a, A: App, L: Ledger>(
    engine: &mut Engine<'a, A>,
    most: usize,
    acted: &mut Vec<Snapshot<Key>>,
    steps: &mut Steps<L>,
) -> Acting<Engine<'a, A>>
    requires none { acted.old.items ≡ [] }
    ensures app { engine.new.app ≡ engine.old.app }
    ensures moved { (had : List (Job A.Val)) → Moved (A.meaning engine.old.app) engine.old.progress had engine.new.progress (jobs_stuck result.stuck ++ had) (keys_acted acted.new.items) }
    ensures drained { drained_count engine.new.progress ≡ drained_count engine.old.progress }
    ensures nothing { AreToPerform {V = A.Val} [] result.next }
    ensures answer { IsAnswer (A.meaning engine.old.app) engine.new.progress result.next }
    ensures goes_on { GoesOn result.next → result.stuck ≡ None }
{
    move_laws::<A>();
    for _ in 0..most {
        match act_next(engine, acted, steps) {
            Act::Ended => {}
            Act::None(next) => return Acting { next, stuck: None },
            Act::Stuck(stuck) => {
                return Acting {
                    next: Next::Stop,
                    stuck: Some(stuck),
                };
            }
        }
    }
    Acting {
        next: Next::Again,
        stuck: None,
    }
}

/// Lets a clear task act, where one is. For want of memory a mark stands afterwards.
fn act_next<'a, A: App, L: Ledger>(
    engine: &mut Engine<'a, A>,
    acted: &mut Vec<Snapshot<Key>>,
    steps: &mut Steps<L>,
) -> Act<Engine<'a, A>>
    ensures app { engine.new.app ≡ engine.old.app }
    ensures act { IsAct (A.meaning engine.old.app) engine.old.progress acted.old.items result engine.new.progress acted.new.items }
    ensures drained { drained_count engine.new.progress ≡ drained_count engine.old.progress }
{
    move_laws::<A>();
    let Ok(()) = acted.reserve(1) else {
        engine.give_up();
        return Act::None(Next::Stop);
    };
    match engine.next_clear() {
        Ok(Upcoming::Clear(node)) => act_there(engine, node, acted, steps),
        Ok(Upcoming::NotYet) => Act::None(Next::Wait),
        Ok(Upcoming::Over(_) | Upcoming::Ended) => Act::None(Next::Stop),
        Err(_) => {
            engine.give_up();
            Act::None(Next::Stop)
        }
    }
}

/// Lets the task of a clear node act.
fn act_there<'a, A: App, L: Ledger>(
    engine: &mut Engine<'a, A>,
    node: NodeId,
    acted: &mut Vec<Snapshot<Key>>,
    steps: &mut Steps<L>,
) -> Act<Engine<'a, A>>
    requires clear { IsOfClear (A.meaning engine.old.app) engine.old.progress.nodes node }
    requires not_over { engine.old.progress.over ≡ None }
    requires room { vec_len acted.old < vec_capacity acted.old }
    ensures app { engine.new.app ≡ engine.old.app }
    ensures act { IsAct (A.meaning engine.old.app) engine.old.progress acted.old.items result engine.new.progress acted.new.items }
    ensures drained { drained_count engine.new.progress ≡ drained_count engine.old.progress }
{
    move_laws::<A>();
    node_laws();
    join_laws();
    let key = Snapshot::of(&engine.graph().task(node).key);
    let before = Snapshot::of(&*engine);
    match engine.act(node, steps) {
        Ok(()) => {
            acted.push_reserved(key);
            Act::Ended
        }
        // It wasn't even claimed.
        Err(_) if engine.over().is_none() => {
            engine.give_up();
            Act::None(Next::Stop)
        }
        Err(_) => Act::Stuck(Stuck { node, before }),
    }
}
