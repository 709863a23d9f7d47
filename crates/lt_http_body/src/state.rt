//! Where a body stands.

/// What the next byte belongs to.
#[derive(Clone, Copy, Debug, PartialEq, Eq)]
pub(crate) enum State {
    /// A body of a stated length, of which so many bytes are still to come.
    Stated(u64),
    /// A chunk's size, after so many digits, which have this value (RFC 9112, section 7.1: chunk-size).
    Size(u32, u64),
    /// The extensions behind a chunk's size: so many bytes may still come (section 7.1.1: chunk-ext).
    Extension(u32, u64),
    /// The line feed behind a size line.
    SizeFeed(u64),
    /// A chunk's data, of which so many bytes are still to come.
    Data(u64),
    /// The carriage return behind a chunk's data.
    DataReturn,
    /// The line feed behind a chunk's data.
    DataFeed,
    /// The first byte of a line of the trailer, which may have so many more bytes (section 7.1.2: trailer-section).
    Trailer(u32),
    /// A further byte of such a line.
    TrailerLine(u32),
    /// The line feed behind such a line.
    TrailerFeed(u32),
    /// The line feed of the empty line that ends the body.
    LastFeed,
    /// The body has ended.
    Whole,
    /// No chunked body goes on with the bytes that came.
    BadChunk,
    /// A size line took the sum above the limit.
    TooLarge,
}
