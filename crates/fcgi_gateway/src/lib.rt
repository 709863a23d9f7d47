//! One attempt at a FastCGI application: what must be sent to it, and what its answer comes to.
//! Promised: what is still to be sent is what the request asks, after what was taken; the state is the result of the attempt, as
//! `cgi_text` defines it; an attempt that may be made again stands as when it was made; no buffer is lost or doubled.
//! Stands on `fcgi_records` (records), `cgi_text` (parameters, the head of an answer, results), `chunkqueue` and `lt_bytes`.
#![tactic(auto)]

mod asking;
mod handing;
mod hearing;
mod sending;
mod task;

pub use hearing::ANSWER_LIMIT;
pub use sending::RECORD_SIZE;
pub use task::FcgiTask;
