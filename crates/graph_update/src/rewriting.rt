//! What the end of a task makes of the graph: its children are fresh tasks, and the later nodes in
//! its way get new sets.

ghost use Rattle.std.specs.Prelude.{◌≡◌, ◌+◌, ◌<◌, ◌≤◌, ◌^◌, List, Some, length, IfOk, OnOk};
ghost use Rattle.std.specs.List.{AllByRecursion};
ghost use Rattle.kdg_graph.specs.Node.{Node};
ghost use Rattle.kdg_graph.specs.Nodes.{HasNode, IsGraph, node_at, tasks_of};
ghost use Rattle.kdg_graph.specs.Edges.{laters_of};
ghost use Rattle.kdg_graph.specs.Rewrite.{AreChangesOf, with_sets, without};
ghost use Rattle.app_laws.specs.Applications.{AgreesWith, AreFitTasks};
ghost use Rattle.graph_update.specs.Engine.{AsksForNoFixedSet, HaveFixedSets};
ghost use Rattle.run_laws.specs.Events.{fresh_from, renewals, renewed};

use app_laws::{App, Child, SetAnswer};
use cell_store::Store;
use kdg_graph::laws::{later_laws, node_laws};
use kdg_graph::{Fresh, Graph, NodeId, SetChange};
use kdg_text::{NoRoom, Steps};
use rw_sets::RwSet;
use std::alloc::Global;
use std::sync::ledger::Ledger;
use task_order::{Key, Task};

/// Makes the list that of the children of a task as fresh tasks, with their keys and copies of their
/// sets. What was in it is dropped. After `NoRoom` it may lack some.
#[inline(always)]
pub(crate) fn fresh_tasks(
    fresh: &mut Vec<Fresh>,
    parent: &Key,
    children: &[Child],
) -> Result<(), NoRoom>
    requires few { length children.now < 2 ^ 32 }
    requires not_earlier { AllByRecursion (λ child. parent.now.prio ≤ child.prio) children.now }
    ensures { OnOk result (fresh.new.items ≡ fresh_from parent.now 0 children.now) }
{
    if !fresh.is_empty() {
        fresh.clear();
    }
    for (number, child) in children.iter().enumerate() {
        let task = Task {
            key: parent.child(number as u32, child.prio)?,
            body: child.body,
        };
        let set = child.set.copy()?;
        fresh.push(Fresh { task, set })?;
    }
    Ok(())
}

/// What the end of a node changes of the recorded sets: new sets for the later nodes that its recorded set
/// conflicts with, over the cells after it, and nothing where the sets are fixed, since each set would be
/// replaced by itself. Each of these later nodes takes one step at most, and none where the sets are fixed.
#[inline(always)]
pub(crate) fn set_changes<A: App, L: Ledger>(
    alloc: Global,
    app: &A,
    graph: &Graph,
    store: &Store<A::Val>,
    ended: NodeId,
    steps: &mut Steps<L>,
) -> Result<Vec<SetChange>, NoRoom>
    requires graph { IsGraph graph.now }
    requires there { HasNode graph.now ended }
    requires tasks { AreFitTasks (A.meaning app.now) (tasks_of graph.now) }
    requires sets { HaveFixedSets (A.meaning app.now) graph.now }
    requires cells { (values : List A.Val) × (A.meaning app.now).is_fit_cells values × AgreesWith store.now values }
    ensures changes { IfOk result (λ changes. AreChangesOf graph.now ended changes.items) }
    ensures same { IfOk result (λ changes. (node : Node) → node_at graph.now ended ≡ Some node →
        let others = without ended graph.now in
        with_sets changes.items others ≡ with_sets (renewals (A.meaning app.now) store.now graph.now node) others) }
    ensures steps { (node : Node) → node_at graph.now ended ≡ Some node →
        steps.new ≤ steps.old + length (laters_of graph.now node) }
    ensures no_step { AsksForNoFixedSet (A.has_fixed_sets app.now) steps.old steps.new }
{
    later_laws();
    node_laws();
    if app.sets_are_fixed() {
        return Ok(Vec::new(alloc));
    }
    renewals(alloc, app, graph, store, ended, steps)
}

/// The new recorded sets of the later nodes whose recorded sets conflict with that of a node that
/// ends, over the cells after it. Each such node takes one step.
fn renewals<A: App, L: Ledger>(
    alloc: Global,
    app: &A,
    graph: &Graph,
    store: &Store<A::Val>,
    ended: NodeId,
    steps: &mut Steps<L>,
) -> Result<Vec<SetChange>, NoRoom>
    requires there { HasNode graph.now ended }
    requires tasks { AreFitTasks (A.meaning app.now) (tasks_of graph.now) }
    requires cells { (values : List A.Val) × (A.meaning app.now).is_fit_cells values × AgreesWith store.now values }
    ensures changes { IfOk result (λ changes. (node : Node) → node_at graph.now ended ≡ Some node →
        changes.items ≡ renewals (A.meaning app.now) store.now graph.now node) }
    ensures graph { IsGraph graph.now }
    ensures steps { (node : Node) → node_at graph.now ended ≡ Some node →
        steps.new ≤ steps.old + length (laters_of graph.now node) }
{
    node_laws();
    let mut changes = Vec::new(alloc);
    for node in graph.later_of(ended) {
        let set = renewed(app, graph, store, ended, node, steps)?;
        changes.push(SetChange { node, set })?;
    }
    Ok(changes)
}

/// The new recorded set of one of them, in one step.
fn renewed<A: App, L: Ledger>(
    app: &A,
    graph: &Graph,
    store: &Store<A::Val>,
    ended: NodeId,
    later: NodeId,
    steps: &mut Steps<L>,
) -> Result<RwSet, NoRoom>
    requires ended { HasNode graph.now ended }
    requires later { HasNode graph.now later }
    requires tasks { AreFitTasks (A.meaning app.now) (tasks_of graph.now) }
    requires cells { (values : List A.Val) × (A.meaning app.now).is_fit_cells values × AgreesWith store.now values }
    ensures set { IfOk result (λ set. (node other : Node) → node_at graph.now ended ≡ Some node → node_at graph.now later ≡ Some other →
        set ≡ renewed (A.meaning app.now) node.set other.set ((A.meaning app.now).walk other.task.body store.now)) }
    ensures step { steps.new ≡ steps.old + 1 }
{
    node_laws();
    match app.sets(&graph.task(later).body, store, steps)? {
        SetAnswer::Known(set) => Ok(set),
        SetAnswer::Out(_) => graph.set(later).merge(graph.set(ended)),
    }
}
