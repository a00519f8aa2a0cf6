//! The engine by its calls: what each of them answers, whatever order tasks are claimed and end in.
//! There is no code here but tests.
#![tactic(auto)]

#[cfg(test)]
mod adder;
#[cfg(test)]
mod circuits;
#[cfg(test)]
mod crowds;
#[cfg(test)]
mod decks;
#[cfg(test)]
mod driving;
#[cfg(test)]
mod hooks;
#[cfg(test)]
mod matrices;
#[cfg(test)]
mod meetings;
#[cfg(test)]
mod outcomes;
#[cfg(test)]
mod recorded_sets;
#[cfg(test)]
mod rounds;
#[cfg(test)]
mod starts;
#[cfg(test)]
mod streams;
#[cfg(test)]
mod tight;
#[cfg(test)]
mod trails;
#[cfg(test)]
mod trials;
#[cfg(test)]
mod walkers;
