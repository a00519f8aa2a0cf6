//! What holds of an execution whose tasks end in any order, whatever engine plays it.
#![tactic(auto)]

mod course_laws;
mod finish_laws;
mod laws;
mod moves;

pub use course_laws::{
    course_act_laws, course_claim_laws, course_drain_laws, course_end_laws, course_event_laws,
    course_mark_laws, course_run_laws, course_start_laws,
};
pub use finish_laws::{finish_basis, finish_state_laws, performed_laws, sound_finish_laws};
pub use laws::{
    act_laws, basis, begin_laws, claim_laws, clear_claim_laws, clear_laws, drain_laws, event_laws,
    job_laws, lower_laws, renaming_laws, rest_laws, stay_clear_laws, whole_laws,
};
pub use moves::move_laws;
