//! What of an answer is being read.
use lt_bytes::Text;
use lt_http_body::Body;

/// What the next byte belongs to.
#[derive(Drop)]
pub(crate) enum Stage {
    /// A head, of which these bytes came, with the empty lines before it (RFC 9112, section 2.2).
    Head(Text),
    /// A body of a stated length, or in the chunked transfer coding (section 6.3, items 4 and 6).
    Framed(Body),
    /// A body that goes on up to the end of the link, of which so many bytes may still come (section 6.3, item 8).
    ToEnd(u64),
    /// Nothing: the answer has ended.
    Done,
    /// Nothing: no answer goes on with the bytes that came.
    BadAnswer,
    /// Nothing: the body is above the limit.
    TooLarge,
}
