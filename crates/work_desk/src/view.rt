//! What is known of a seat at a desk.

/// What a seat knows, for contracts alone: no value of it is made.
pub struct View<T, K> {
    /// What the desk was told when it was made.
    pub key: K,
    /// Whose seat it is.
    pub part: Part<T>,
}

/// Whose seat it is, and what that one has in hand.
pub enum Part<T> {
    /// The only seat, of a desk that wasn't opened.
    Shut,
    /// The only seat, of a desk that was opened.
    Open,
    /// The giver's, with what was given and hasn't come back.
    Giver(Option<T>),
    /// The worker's, with what was taken and isn't finished.
    Worker(Option<T>),
}
