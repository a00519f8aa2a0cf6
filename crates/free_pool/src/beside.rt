//! Work on another thread beside the caller's own.

ghost use Rattle.std.specs.Thread.{IsSend, IsSync};
ghost use Rattle.free_pool.specs.Beside.{GivesOne, GivesTwo, TakesOne, TakesTwo};

use std::thread::{Threads, join_mut};

/// Does the job in a new thread, or last where none can be made, and the caller's own work in this one. It
/// comes back when both are done. What the own work is done on stays in this thread.
pub(crate) fn beside<R: Threads, J: Send, F: Fn(&mut J) + Sync, P, S, H: Fn(&mut P, &mut S)>(
    rt: &R,
    f: &F,
    job: &mut J,
    h: &H,
    own: &mut P,
    out: &mut S,
)
    requires job { TakesOne F.Fn f.now job.old }
    requires own { TakesTwo H.Fn h.now own.old out.old }
    ensures job { GivesOne F.Fn f.now job.old job.new }
    ensures own { GivesTwo H.Fn h.now own.old out.old own.new out.new }
{
    let mut others = ||
        requires { IsSync F.row × IsSend J.row × TakesOne F.Fn f.now job.now }
        ensures { GivesOne F.Fn f.entry.now job.entry.now job.exit.now }
    { do_job(f, job) };
    let mut mine = ||
        requires { TakesTwo H.Fn h.now own.now out.now }
        ensures { GivesTwo H.Fn h.entry.now own.entry.now out.entry.now own.exit.now out.exit.now }
    { do_own(h, own, out) };
    join_mut(rt, &mut others, &mut mine);
}

/// A thread's closure calls a function by name, so that what it leaves behind its captures is told.
fn do_job<J, F: Fn(&mut J)>(f: &F, job: &mut J)
    requires { TakesOne F.Fn f.now job.old }
    ensures { GivesOne F.Fn f.now job.old job.new }
{
    f(job);
}

/// The same for the caller's own work.
fn do_own<P, S, H: Fn(&mut P, &mut S)>(h: &H, own: &mut P, out: &mut S)
    requires { TakesTwo H.Fn h.now own.old out.old }
    ensures { GivesTwo H.Fn h.now own.old out.old own.new out.new }
{
    h(own, out);
}
