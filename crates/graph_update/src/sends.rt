//! That an engine may go to another thread.

ghost use denote.Param.Send.{IsSend};
ghost use denote.Ref.{NamedLft};
ghost use Rattle.kdg_graph.specs.contracts.graph.Graph as graph;
ghost use Rattle.kdg_graph.specs.contracts.change.Fresh as fresh;
ghost use Rattle.output_log.specs.contracts.log.Log as log;
ghost use Rattle.cell_store.specs.contracts.store.Store as store;
ghost use Rattle.graph_update.specs.contracts.agenda.Tally as tally;
ghost use Rattle.graph_update.specs.contracts.engine.Engine as engine;
ghost use Rattle.graph_update.specs.contracts.ready.Ready as ready;
ghost use Rattle.crew.specs.contracts.answers.OverCause as cause;
ghost use Rattle.std.specs.contracts.option.Option as option;
ghost use Rattle.std.specs.contracts.vec.Vec as vec;
ghost use Rattle.std.specs.contracts.alloc.Global as global;
ghost use Rattle.std.specs.contracts.impls.GlobalAllocator.TheImpl as global_allocator;

use crate::agenda::{Agenda, Tally};
use crate::ready::Ready;
use crate::{Engine, OverCause};
use app_laws::App;
use cell_store::Store;
use kdg_graph::{Fresh, Graph};
use output_log::Log;

/// It may go to another thread.
fn sends<T: Send>()
    ensures { IsSend T.row }
{}

fn graph_sends()
    ensures { IsSend graph.the_row }
{
    sends::<Graph>();
}

fn log_sends()
    ensures { IsSend log.the_row }
{
    sends::<Log>();
}

fn fresh_sends()
    ensures { IsSend fresh.the_row }
{
    sends::<Fresh>();
}

fn list_sends()
    ensures { IsSend (vec.the_row fresh.the_row global.the_row global_allocator.ghosts) }
{
    fresh_sends();
    sends::<Vec<Fresh>>();
}

fn over_sends()
    ensures { IsSend (option.the_row cause.the_row) }
{
    sends::<Option<OverCause>>();
}

fn ready_sends()
    ensures { IsSend ready.the_row }
{
    sends::<Ready>();
}

fn store_sends<A: App>()
    ensures { IsSend (store.the_row A.Val.row) }
{
    sends::<Store<A::Val>>();
}

fn tally_sends()
    ensures { IsSend tally.the_row }
{
    log_sends();
    over_sends();
    sends::<Tally>();
}

/// An engine may go to another thread, where its application may be seen from there.
pub fn engine_sends<A: App + Sync>()
    ensures { (ℓ : NamedLft) → IsSend (engine.the_row ℓ A.row A.Val.row A.Horizon.row A.App) }
{
    graph_sends();
    ready_sends();
    list_sends();
    sends::<Agenda<A>>();
    store_sends::<A>();
    tally_sends();
}
