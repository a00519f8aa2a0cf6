//! Halls by their calls: two threads meet, and threads of a caller claim, perform and end tasks with loops of
//! their own. There is no code here but tests.
#![tactic(auto)]

#[cfg(test)]
mod inputs;
#[cfg(test)]
mod loops;
#[cfg(test)]
mod meeting;
#[cfg(test)]
mod outcomes;
#[cfg(test)]
mod place;
#[cfg(test)]
mod team;
#[cfg(test)]
mod tests;
#[cfg(test)]
mod turns;
