//! How the clear tasks of a round act one after the other.

ghost use Rattle.std.specs.Prelude.{◌≡◌, ◌+◌, length, IfErr, OnOk};
ghost use Rattle.cell_store.specs.Values.{values_of};
ghost use Rattle.kdg_graph.specs.Nodes.{HasNode};
ghost use Rattle.source_pool.specs.Course.{IsActing, RestsAt, RunPoint};
ghost use Rattle.source_pool.specs.Round.{BeginsRound, IsEndFault, IsRoundFault, IsRoundPlayed};

use crate::RunFault;
use crate::laws::{acting_laws, kept_laws};
use crate::round_lists::RoundLists;
use app_laws::App;
use graph_update::Engine;
use kdg_graph::{Graph, NodeId};
use kdg_text::Steps;
use std::sync::ledger::Ledger;

/// Has all clear tasks act, one after the other in the order of their keys. What was in the list of
/// ids is dropped.
pub(crate) fn act_round<A: App, L: Ledger>(
    engine: &mut Engine<'_, A>,
    lists: &mut RoundLists<A>,
    steps: &mut Steps<L>,
) -> Result<(), RunFault>
    ghost from: { RunPoint A.Val }
    requires begins { BeginsRound (A.meaning engine.old.app) from engine.old.progress }
    ensures app { engine.new.app ≡ engine.old.app }
    ensures told { lists.new.partners ≡ lists.old.partners }
    ensures played { OnOk result (IsRoundPlayed (A.meaning engine.old.app) from from.text engine.old.progress engine.new.progress) }
    ensures fault { IfErr result (IsRoundFault (A.meaning engine.old.app) from engine.old.progress) }
{
    acting_laws::<A>();
    kept_laws::<A>();
    engine.find_clear(&mut lists.ids)?;
    let cells = act_in_turn(engine, &lists.ids, lists.work.goes_by_cells(), steps)?;
    lists.work.note_round(lists.ids.len(), cells);
    Ok(())
}

/// Has the tasks of these nodes act in turn. The answer is a hint for later rounds: how many cells they
/// had in all, at most the greatest number, where that is to be counted.
fn act_in_turn<A: App, L: Ledger>(
    engine: &mut Engine<'_, A>,
    ids: &[NodeId],
    counts: bool,
    steps: &mut Steps<L>,
) -> Result<usize, RunFault>
    ghost to: { RunPoint A.Val }
    requires acting { IsActing (A.meaning engine.old.app) to.start (values_of to.start.cells) to.state to.text engine.old.progress ids.now }
    ensures app { engine.new.app ≡ engine.old.app }
    ensures rest { OnOk result (RestsAt (A.meaning engine.old.app) to engine.new.progress) }
    ensures ended { OnOk result (engine.new.progress.ended ≡ engine.old.progress.ended + length ids.now) }
    ensures fault { IfErr result (IsEndFault (A.meaning engine.old.app) to (engine.old.progress.ended + length ids.now)) }
{
    acting_laws::<A>();
    kept_laws::<A>();
    let mut cells = 0usize;
    for id in ids {
        if counts {
            cells = cells.saturating_add(cells_of(engine.graph(), *id));
        }
        engine.act(*id, steps)?;
    }
    Ok(cells)
}

/// How many cells a node's task has.
fn cells_of(graph: &Graph, id: NodeId) -> usize
    requires { HasNode graph.now id }
{
    graph.set(id).items().len()
}
