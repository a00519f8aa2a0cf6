//! What the libraries below all applications do, by their calls. There is no code here but tests.
#![tactic(auto)]

#[cfg(test)]
mod children;
#[cfg(test)]
mod edges;
#[cfg(test)]
mod lists;
#[cfg(test)]
mod logs;
#[cfg(test)]
mod paths;
#[cfg(test)]
mod tasks;
