//! What is read, and what of it moves, by the calls of the readers and the applications. There is no code
//! here but tests.
#![tactic(auto)]

#[cfg(test)]
mod circuits;
#[cfg(test)]
mod covers;
#[cfg(test)]
mod decks;
#[cfg(test)]
mod eliminations;
#[cfg(test)]
mod levels;
#[cfg(test)]
mod meshes;
#[cfg(test)]
mod patterns;
#[cfg(test)]
mod rows;
#[cfg(test)]
mod springs;
