//! What an HTTP gateway is asked and what it answers (RFC 9110; RFC 9112; lighttpd's mod_proxy).
//! Promised: the head of a request is that of the definition. An answer is that of the definition over all bytes that came,
//! however they are cut, and over whether the link has ended; the bytes of its body move from queue to queue; after want of
//! memory nothing is lost, and after a refusal the same is refused again.
//! Stands on `cgi_text` (`GateRequest`, `CgiHead`, the fields that are passed on), `lt_http_body` (`Body`), `http_head` (where a
//! head ends, its fields), `httparse`, `http_header`, `chunkqueue` and `lt_bytes`.
#![tactic(auto)]

mod answer;
mod asking;
mod content;
mod heads;
pub mod laws;
mod limits;
mod progress;
mod refusal;
mod stage;

pub use answer::AnswerReader;
pub use asking::ask;
pub use limits::BODY_LIMIT;
pub use refusal::{AnswerRefusal, AnswerState};
