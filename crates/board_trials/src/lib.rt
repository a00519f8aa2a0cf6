//! Boards by their calls, marked by several threads at once, beside a plain search of all pairs of sets.
//! There is no code here but tests.
#![tactic(auto)]

#[cfg(test)]
mod marking;
#[cfg(test)]
mod tests;
