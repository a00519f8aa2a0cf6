//! What marks tell of pending tasks.

ghost use Rattle.mark_rounds.specs.Basis.{Basis};
ghost use Rattle.mark_rounds.specs.Marked.{FreeAndSafeIsClear};
ghost use Rattle.mark_rounds.specs.Sources.{FreeNodesAreSources};

use app_laws::{App, lawful};
use cell_store::value_laws;
use kdg_graph::laws::{node_laws, source_laws};
use mark_board::free_laws;
use rw_sets::conflict_laws;
use task_order::earlier_laws;

/// Where every pending task has marked its declared set with its place in the order, a task is clear
/// exactly where its place is free and it is safe.
pub fn marked_laws<A: App>()
    ensures { (app : A) → FreeAndSafeIsClear (A.meaning app) }
{
    lawful::<A>();
    conflict_laws();
    free_laws();
}

/// Where each node of a graph has marked its set with its place in the order, and none is running, the
/// free places are those of the graph's sources.
pub fn marked_source_laws()
    ensures { FreeNodesAreSources }
{
    earlier_laws();
    node_laws();
    source_laws();
    free_laws();
}

/// What the crates below promise, and what marks tell, as one.
pub(crate) fn basis<A: App>()
    ensures { (app : A) → Basis (A.meaning app) }
{
    lawful::<A>();
    marked_laws::<A>();
    free_laws();
    value_laws::<A::Val>();
}
