//! The header of a record.

/// The bytes of a header in their order, as far as they came (FastCGI Specification 1.0, section 3.3); the others are 0.
#[derive(Clone, Copy, Debug, PartialEq, Eq)]
pub(crate) struct Header {
    pub(crate) version: u8,
    pub(crate) kind: u8,
    pub(crate) id_high: u8,
    pub(crate) id_low: u8,
    pub(crate) length_high: u8,
    pub(crate) length_low: u8,
    pub(crate) padding: u8,
}
