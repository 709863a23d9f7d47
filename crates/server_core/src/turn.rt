//! What a turn answers.

/// What a turn of the server did.
#[derive(Clone, Copy, Debug, PartialEq, Eq)]
pub enum Turn {
    /// An event of a link was there, and what was due for it is done.
    Did,
    /// Nothing was ready.
    Idle,
    /// Nothing will be ready any more.
    Over,
    /// The net had no memory for its next event.
    NoMemory,
}
