//! The numbers of the specification (FastCGI Specification 1.0, section 8).

/// The version of the protocol.
pub(crate) const VERSION: u8 = 1;

/// The request id: there is one request a connection.
pub(crate) const REQUEST_ID: u8 = 1;

/// The role of the application.
pub(crate) const RESPONDER: u8 = 1;

/// The protocol status of a request that was served.
pub(crate) const REQUEST_COMPLETE: u8 = 0;

/// The type of the record with which a request begins.
pub const BEGIN_REQUEST: u8 = 1;

/// The type of the record with which an answer ends.
pub const END_REQUEST: u8 = 3;

/// The type of records with parameters.
pub const PARAMS: u8 = 4;

/// The type of records with the request's body.
pub const STDIN: u8 = 5;

/// The type of records with the answer.
pub const STDOUT: u8 = 6;

/// The type of records with messages of errors.
pub const STDERR: u8 = 7;
