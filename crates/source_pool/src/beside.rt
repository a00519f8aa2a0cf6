//! Work on another thread beside the caller's own.

ghost use Rattle.std.specs.Prelude.{◌≡◌};
ghost use Rattle.std.specs.Thread.{IsSend, IsSync};

use std::thread::{Threads, join_mut};

/// Does the job in a new thread, or last where none can be made, and the caller's own work in this one,
/// whose answer this is. What the own work is done on stays in this thread.
pub(crate) fn beside<R: Threads, J: Send, F: Fn(&mut J) + Sync, B, H: FnMut() -> B>(
    rt: &R,
    f: &F,
    job: &mut J,
    own: &mut H,
) -> B
    requires job { F.IsAlwaysCallable f.now }
    requires own { H.pre own.old }
    ensures { H.step own.old result own.new }
{
    let mut others = ||
        requires { IsSync F.row × IsSend J.row × F.IsAlwaysCallable f.now }
    { do_job(f, job) };
    let ((), made) = join_mut(rt, &mut others, own);
    made
}

/// A thread's closure calls a function by name.
fn do_job<J, F: Fn(&mut J)>(f: &F, job: &mut J)
    requires { F.IsAlwaysCallable f.now }
{
    f(job);
}
