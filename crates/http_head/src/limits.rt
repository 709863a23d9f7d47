//! The limits on a request head.

/// The most bytes that a head may have, with the empty lines before it and the one that ends it.
pub const HEAD_LIMIT: usize = 8_192;

/// The most field lines that a head may have.
pub const FIELD_LINE_LIMIT: usize = 64;
