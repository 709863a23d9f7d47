//! The limits on an answer.

/// The most bytes that the body of an answer may have.
pub const BODY_LIMIT: u64 = 4_194_304;
