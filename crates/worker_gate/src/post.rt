//! What a worker takes along to the thread that it works in.

ghost use denote.Param.Send.{IsSend};
ghost use denote.Ref.{NamedLft};
ghost use Rattle.worker_gate.specs.contracts.post.Post as post;

use crate::hall::{Hall, Seat};
use app_laws::App;
use graph_update::engine_sends;

/// Where a worker works: at a hall, in a seat of it.
#[derive(Drop)]
pub struct Post<'h, 'a, A: App> {
    /// The application of the hall's engine.
    pub app: &'a A,
    /// The hall.
    pub hall: &'h Hall<'a, A>,
    /// The worker's seat.
    pub seat: Seat<'a, A>,
    /// The worker's number.
    pub worker: u32,
}

/// A post may go to another thread, where the application may be seen from there.
pub fn post_sends<A: App + Sync>()
    ensures { (h a : NamedLft) → IsSend (post.the_row h a A.row A.Val.row A.Horizon.row A.App A.Val.Held) }
{
    engine_sends::<A>();
}
