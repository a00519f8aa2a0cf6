//! The graph by its calls, beside a plain search of all pairs of nodes. There is no code here but
//! tests.
#![tactic(auto)]

#[cfg(test)]
mod plain;
#[cfg(test)]
mod tests;
