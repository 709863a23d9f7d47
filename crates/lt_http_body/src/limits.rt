//! The limits on the chunked form.
/// The most hexadecimal digits that a chunk's size may have.
pub const SIZE_DIGITS: u32 = 15;

/// The most bytes that a chunk's extensions may have, without the `;` that begins them.
pub const EXTENSION_LIMIT: u32 = 256;

/// The most bytes that the trailer may have, with the empty line that ends it.
pub const TRAILER_LIMIT: u32 = 8_192;
