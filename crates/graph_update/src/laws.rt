//! What the proofs of the engine rest on.

ghost use Rattle.graph_update.specs.Basis.{Basis, EndBasis};

use app_laws::{App, lawful};
use kdg_graph::laws::put_laws;
use run_laws::{
    act_laws, claim_laws, clear_claim_laws, clear_laws, drain_laws, finish_basis,
    finish_state_laws, job_laws, lower_laws, performed_laws, renaming_laws, rest_laws,
};

/// What holds of an application's executions while they go on.
pub(crate) fn basis<A: App>()
    ensures { (app : A) → Basis (A.meaning app) }
{
    lawful::<A>();
    lower_laws();
    put_laws();
    claim_laws::<A>();
    clear_laws::<A>();
    clear_claim_laws::<A>();
    job_laws::<A>();
    drain_laws::<A>();
    act_laws::<A>();
    rest_laws::<A>();
    renaming_laws::<A>();
}

/// What holds of a task of an execution that was performed, and where it ends.
pub(crate) fn end_basis<A: App>()
    ensures { (app : A) → EndBasis (A.meaning app) }
{
    finish_basis::<A>();
    finish_state_laws::<A>();
    performed_laws::<A>();
}
