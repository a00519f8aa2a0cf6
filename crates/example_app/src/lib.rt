//! A small ordered application whose sets move: the example for authors of further ones, and what
//! the executors are tested with.
//!
//! It has little beyond what each application must have: a meaning (`specs/Introduction.antt`) that is
//! lawful (`specs/Lawful.antt`), and of the methods of `App` those that have no body there: `cells`,
//! `sets`, `sets_are_fixed`, `horizon`, `touch`, `safe` and `run`. Where `safe` looks at no pending task, the
//! horizon is `()`, of which `tells` says nothing. The clauses of `run` are written out again, since it takes
//! its bundle by value. Of what an application may tell besides, this one tells that it ignores paths.
#![tactic(auto)]

mod introductions;

pub use introductions::Introductions;

#[cfg(test)]
mod tests;
