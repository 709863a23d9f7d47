//! Records of the FastCGI Specification 1.0, as a web server writes and reads them: one request a connection, with id 1.
//! Promised: what is written are the bytes of the specification; what is read is what the definition says of all bytes that
//! came, however they are cut; content moves from queue to queue; after want of memory nothing is lost, and after a refusal
//! the same is refused again.
//! The crate stands on `chunkqueue` (`Queue`), `buffer_pool` (the words on buffers) and `lt_bytes`.
#![tactic(auto)]

mod encoding;
mod header;
mod kinds;
pub mod laws;
mod reader;
mod state;
mod stepping;

pub use encoding::{encode_begin, encode_header};
pub use kinds::{BEGIN_REQUEST, END_REQUEST, PARAMS, STDERR, STDIN, STDOUT};
pub use reader::{Reader, ReaderState, RecordFault};
