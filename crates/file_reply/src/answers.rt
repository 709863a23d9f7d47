//! What an answer says.

use http_reply::Fields;

/// What follows the head of a reply.
#[derive(Clone, Copy, Debug, PartialEq, Eq)]
pub enum Content {
    /// The status in words, as each error has it.
    Phrase,
    /// So many bytes of the file, from `start` on; none where the status has no content, or the file is empty.
    Part { start: u64, len: u64 },
}

/// The status of a reply, the fields that are its own, and what follows its head.
#[derive(Debug, Drop)]
pub struct Answer {
    pub status: u16,
    pub fields: Fields,
    pub content: Content,
}
