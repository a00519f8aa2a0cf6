//! How a claimed task is performed.

ghost use Rattle.std.specs.Prelude.{◌≡◌, IfOk, IfErr};
ghost use Rattle.app_laws.specs.Applications.{IsEffect};
ghost use Rattle.crew.specs.Jobs.{MayRun};

use crate::{Done, Job};
use app_laws::App;
use outer_edge::Gate;

/// Performs a claimed task on its bundle, once the gate lets the worker pass. Where memory runs out,
/// the job comes back as it was.
#[inline(always)]
pub fn perform<N, A: App, G: Gate>(
    app: &A,
    job: Job<N, A::Val>,
    worker: u32,
    gate: &G,
) -> Result<Done<N, A::Val>, Job<N, A::Val>>
    requires { MayRun (A.meaning app.now) job }
    ensures node { IfOk result (λ done. done.node ≡ job.node) }
    ensures task { IfOk result (λ done. done.task ≡ job.task) }
    ensures effect { IfOk result (λ done. IsEffect (A.meaning app.now) job.task job.bundle done.effect) }
    ensures returned { IfErr result (λ back. back ≡ job) }
{
    gate.pass(worker, &job.task.key);
    let Job { node, task, bundle } = job;
    match app.run(&task, bundle) {
        Ok(effect) => Ok(Done { node, task, effect }),
        Err(bundle) => Err(Job { node, task, bundle }),
    }
}
