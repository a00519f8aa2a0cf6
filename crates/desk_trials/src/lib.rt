//! Desks by their calls, with one thread and with two. There is no code here but tests.
#![tactic(auto)]

#[cfg(test)]
mod doubling;
#[cfg(test)]
mod kept;
#[cfg(test)]
mod tests;
