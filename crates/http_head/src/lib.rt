//! The head of an HTTP/1.x request (RFC 9112, sections 2 to 6): where it ends among the bytes that
//! came, and the request that it says, or the first reason to refuse it.
//! Both are exact. What a head says is a function of its bytes, which reads just what the grammar of
//! `httparse` reads; more bytes change no end; a body is framed in one way or the head is refused.
//! The crate stands on `http_target`, `lt_bytes`, `httparse` and `http_header`.
#![tactic(auto)]

mod ends;
mod fields;
mod framing;
mod head;
mod host;
pub mod laws;
mod limits;
mod lines;
mod options;
mod refusal;
mod scan;

pub use ends::{HeadEnd, head_end};
pub use fields::read_fields;
pub use framing::Framing;
pub use head::{Request, read_head};
pub use limits::{FIELD_LINE_LIMIT, HEAD_LIMIT};
pub use options::has_option;
pub use refusal::HeadRefusal;
pub use scan::HeadScan;
