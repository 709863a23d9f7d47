//! The body of a request (RFC 9112, sections 6 and 7.1): which of the bytes behind a head are its own, and what data they
//! carry, however they are cut.
//! Promised: the answer is that of the definition on all bytes that came; the data among them moves from queue to queue;
//! after want of memory nothing is lost, and after a refusal the same is refused again.
//! The crate stands on `http_head` (`Framing`), `chunkqueue` (`Queue`), `buffer_pool` (the words on buffers) and `lt_bytes`.
#![tactic(auto)]

mod body;
pub mod laws;
mod limits;
mod size_line;
mod standing;
mod state;
mod trailer;

pub use body::{Body, BodyRefusal, BodyState};
pub use http_head::Framing;
pub use limits::{EXTENSION_LIMIT, SIZE_DIGITS, TRAILER_LIMIT};
