//! That what a kept worker takes along may go to its thread.

ghost use denote.Param.Send.{IsSend};
ghost use denote.Ref.{NamedLft};
ghost use Rattle.source_pool.specs.contracts.partners.Post as post;
ghost use Rattle.source_pool.specs.contracts.partners.Told as told;
ghost use Rattle.source_pool.specs.contracts.partners.Order as order;
ghost use Rattle.cell_store.specs.contracts.bundle.Bundle as bundle;
ghost use Rattle.app_laws.specs.contracts.app.Effect as effect;
ghost use Rattle.task_order.specs.contracts.task.Task as task;
ghost use Rattle.crew.specs.contracts.job.Done as done;
ghost use Rattle.crew.specs.contracts.job.Job as job;
ghost use Rattle.kdg_graph.specs.contracts.node_id.NodeId as node;
ghost use Rattle.source_pool.specs.contracts.hands.Hand as hand;

use crate::hands::Hand;
use crate::partners::{HandServer, HandServers, Told};
use app_laws::{App, Effect};
use cell_store::Bundle;
use graph_update::{Done, Job};
use task_order::Task;

/// It may go to another thread.
fn sends<T: Send>()
    ensures { IsSend T.row }
{}

/// A task may go to another thread.
fn task_sends()
    ensures { IsSend task.the_row }
{
    sends::<Task>();
}

/// The cells of a task may go to another thread.
fn bundle_sends<A: App>()
    ensures { IsSend (bundle.the_row A.Val.row) }
{
    sends::<Bundle<A::Val>>();
}

/// What a task did may go to another thread.
fn effect_sends<A: App>()
    ensures { IsSend (effect.the_row A.Val.row) }
{
    bundle_sends::<A>();
    sends::<Effect<A::Val>>();
}

/// What a worker has in hand may go to another thread.
fn hand_sends<A: App>()
    ensures { IsSend (hand.the_row (job.the_row node.the_row A.Val.row) (done.the_row node.the_row A.Val.row)) }
{
    task_sends();
    bundle_sends::<A>();
    effect_sends::<A>();
    sends::<Job<A::Val>>();
    sends::<Done<A::Val>>();
    sends::<Hand<Job<A::Val>, Done<A::Val>>>();
}

/// What is given to a worker may go to another thread.
fn order_sends<A: App>()
    ensures { IsSend (order.the_row A.row A.Val.row A.Horizon.row) }
{
    hand_sends::<A>();
}

/// What a desk is told may go to another thread.
fn told_sends<A: App>()
    ensures { IsSend (told.the_row A.row) }
{
    sends::<Told<A>>();
}

/// A post may go to another thread, where the application may be seen from there.
pub(crate) fn post_sends<A: App + Sync>()
    ensures { (a : NamedLft) → IsSend (post.the_row a A.row A.Val.row A.Horizon.row A.App A.Val.Held) }
{
    order_sends::<A>();
    told_sends::<A>();
    sends::<HandServer<A>>();
    sends::<Vec<Option<HandServer<A>>>>();
    sends::<HandServers<A>>();
}
