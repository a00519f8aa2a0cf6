//! What is known of a marker.

use rw_sets::Access;
use std::collections::LinkedList;

/// A rank at a location, for contracts alone: no value of it is made.
pub struct Mark {
    /// Where it stands.
    pub loc: u32,
    /// What its task does there.
    pub access: Access,
    /// The task's place in its round, from 0. In a view this counts on from the round's first number.
    pub rank: u64,
}

/// What a marker knows, for contracts alone: no value of it is made.
pub struct View {
    /// Its number.
    pub number: u64,
    /// How many markers were split from it.
    pub splits: u64,
    /// The numbers of those of them that aren't joined yet.
    pub unjoined: LinkedList<u64>,
    /// What was marked under it, in all rounds.
    pub marks: LinkedList<Mark>,
    /// Whether it was joined away.
    pub spent: bool,
}
