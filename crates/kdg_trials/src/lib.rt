//! Worked examples through the top call, over sources and sinks in memory.
//! There is no code here but tests.
#![tactic(auto)]

#[cfg(test)]
mod answering;
#[cfg(test)]
mod decks;
#[cfg(test)]
mod distances;
#[cfg(test)]
mod examples;
#[cfg(test)]
mod failures;
#[cfg(test)]
mod generated;
#[cfg(test)]
mod levels;
#[cfg(test)]
mod matrices;
#[cfg(test)]
mod meshes;
#[cfg(test)]
mod recording;
#[cfg(test)]
mod together;
#[cfg(test)]
mod words;
