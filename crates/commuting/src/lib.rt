//! Clear tasks commute: a pending task that no earlier one touches may act at once.
#![tactic(auto)]

mod laws;

pub use laws::{
    clear_tasks_all_commute, clear_tasks_commute, clear_tasks_stay_clear,
    independent_tasks_commute, listed_tasks_come_to_same, round_laws, standing_laws,
};
