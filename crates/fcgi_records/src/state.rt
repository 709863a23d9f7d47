//! Where a stream of records stands.
use crate::header::Header;

/// Why a stream is refused.
#[derive(Clone, Copy, Debug, PartialEq, Eq)]
pub(crate) enum Cause {
    /// A record of another version.
    WrongVersion,
    /// A record of another request.
    WrongId,
    /// A record that is no answer.
    WrongType,
    /// END_REQUEST with another length.
    WrongEnd,
    /// The request was not served.
    Refused(u8),
    /// A byte behind END_REQUEST.
    AfterEnd,
}

/// What the next byte belongs to (FastCGI Specification 1.0, sections 3.3, 5.3 and 5.5).
#[derive(Clone, Copy, Debug, PartialEq, Eq)]
pub(crate) enum State {
    /// The first byte of a record's header.
    Version,
    /// Its second byte, the type.
    Kind(Header),
    /// The request id's high byte.
    IdHigh(Header),
    /// The request id's low byte.
    IdLow(Header),
    /// The content length's high byte.
    LengthHigh(Header),
    /// The content length's low byte.
    LengthLow(Header),
    /// The length of the padding.
    PaddingLength(Header),
    /// The last byte of the header, with which it is judged.
    Reserved(Header),
    /// Content of STDOUT, of which so many bytes are still to come, and so many of padding behind it.
    Stdout(u64, u8),
    /// Content of STDERR, likewise.
    Stderr(u64, u8),
    /// Padding, of which so many bytes are still to come.
    Padding(u8),
    /// The application's status in END_REQUEST, of which so many bytes are still to come, and so many of padding at the end.
    Status(u8, u8),
    /// The protocol status.
    ProtocolStatus(u8),
    /// The unused bytes behind it.
    Unused(u8, u8),
    /// The padding of END_REQUEST.
    EndPadding(u8),
    /// END_REQUEST is whole, and so is its padding.
    Whole,
    /// The stream is refused.
    Broken(Cause),
}
