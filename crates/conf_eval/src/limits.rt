//! Limits.

/// The most bytes of all texts of a configuration together: 1 MiB.
pub const MAX_TEXTS: u64 = 1_048_576;

/// How many includes may stand inside one another.
pub const MAX_INCLUDES: u32 = 16;

/// How many blocks there may be beside the global one.
pub const MAX_BLOCKS: usize = 1024;

/// How many patterns there may be.
pub const MAX_PATTERNS: usize = 48;
