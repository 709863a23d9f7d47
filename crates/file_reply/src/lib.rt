//! What a request is answered for a file that was found: the status, the fields, and which of its bytes are sent.
//! Promised: each call is its definition in `specs/`: 200, 206, 304 and 416 by If-Modified-Since and Range (RFC 9110,
//! sections 13.1.3 and 14), 301, 403 and 405 before a file is opened. What is sent lies in the file.
//! No call is made on files: the caller knows the size and the time, and has what is sent read.
//! Stands on `static_files`, `http_head`, `http_reply`, `conf_value`, `lt_bytes`, and `http_header` of the kit.
#![tactic(auto)]

mod answers;
mod asked;
mod file;
pub mod laws;
mod refusals;

pub use answers::{Answer, Content};
pub use file::answer;
pub use refusals::{moved, plain, refusal};
