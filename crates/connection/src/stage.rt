//! Where a connection stands.

/// What is to be done next for a connection.
#[derive(Clone, Copy, Debug, PartialEq, Eq)]
pub enum Stage {
    /// More bytes are waited for.
    Waiting,
    /// A head was read, and the limit of its body is asked for by `accept_body`.
    Head,
    /// A request is there, and its reply is to be given.
    Whole,
    /// The request is refused with this status, and its reply is to be given.
    Refused(u16),
    /// Bytes are owed.
    Writing,
    /// All was taken and nothing further can come: the connection is to be closed clean.
    Finished,
}
