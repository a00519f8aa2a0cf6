//! Laws of truth values, orderings, options and lists, for the proofs of all crates. There is no code here.
#![tactic(auto)]
