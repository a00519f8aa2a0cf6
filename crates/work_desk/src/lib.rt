//! A desk between two threads: one gives work there, the other performs it.
#![tactic(auto)]

mod collecting;
mod desk;
mod errand;
mod outcomes;
mod partner;
mod pausing;
mod seats;
mod servers;
mod steps;
mod view;

pub use desk::Desk;
pub use errand::{Answer, Errand};
pub use outcomes::{Collected, Taken};
pub use partner::{Partner, Server, meet};
pub use seats::{Giver, Task, Ticket, Worker};
pub use servers::Servers;
pub use steps::{Deed, Kept};
pub use view::{Part, View};
