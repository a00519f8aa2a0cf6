//! Rounds of resting tasks.
#![tactic(auto)]

#[cfg(test)]
mod resting;
