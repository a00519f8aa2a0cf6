ghost use Rattle.kdg_graph.specs.Laws.{NodesHaveIds, NodesHaveKeys, IdsFindNodes, KeysFindNodes, NewKeysFindNone, IdsFindTheirNodes, LeastIsEarliest, NoneIsLeastOfNone, SourcesAreNodes, SourcesAreUnblocked, RunningNodesAreNoSources, LatersAreNodes, LatersAreInConflict, LatersMayChange, WritersAreOfTasks, PutsAddOneNode, PutsAddTasks, StartsMarkOneNode, StartsKeepTasks, RewritesKeepNodes, RewritesAddNodes, RewritesAddNoOther, RewritesReplaceTasks, RewritesEndNodes};

use rw_sets::conflict_laws;
use task_order::{key_order, without_laws};

/// The nodes of a graph are found by their ids and their keys, and the least one is the earliest.
pub fn node_laws()
    ensures have_ids { NodesHaveIds }
    ensures have_keys { NodesHaveKeys }
    ensures ids_find { IdsFindNodes }
    ensures keys_find { KeysFindNodes }
    ensures new_keys { NewKeysFindNone }
    ensures in_order { IdsFindTheirNodes }
    ensures least { LeastIsEarliest }
    ensures no_least { NoneIsLeastOfNone }
{
    key_order();
}

/// The sources are the nodes that are not running and that no earlier node is in conflict with.
pub fn source_laws()
    ensures nodes { SourcesAreNodes }
    ensures unblocked { SourcesAreUnblocked }
    ensures not_running { RunningNodesAreNoSources }
{
    conflict_laws();
}

/// The later nodes of a node are those in conflict with it, and their sets may change where it ends.
pub fn later_laws()
    ensures nodes { LatersAreNodes }
    ensures in_conflict { LatersAreInConflict }
    ensures may_change { LatersMayChange }
{
    conflict_laws();
}

/// The nodes that write a location are those whose tasks do, where the tasks determine the recorded
/// sets.
pub fn writer_laws()
    ensures { WritersAreOfTasks }
{}

/// A node that is put in is one more, and one that starts is marked; no other changes.
pub fn put_laws()
    ensures one_node { PutsAddOneNode }
    ensures tasks { PutsAddTasks }
    ensures marks_one { StartsMarkOneNode }
    ensures keeps_tasks { StartsKeepTasks }
{}

/// A rewrite keeps the other nodes but for the sets that are named, adds the fresh ones, and no other.
pub fn rewrite_laws()
    ensures keeps { RewritesKeepNodes }
    ensures adds { RewritesAddNodes }
    ensures no_other { RewritesAddNoOther }
    ensures tasks { RewritesReplaceTasks }
    ensures ends { RewritesEndNodes }
{
    key_order();
    without_laws();
}
