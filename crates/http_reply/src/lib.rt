//! How replies are spelled: the head of a reply, and whole error replies (RFC 9112, section 4).
//! Promised: the bytes are exactly those of the definition `reply_head` and `error_reply` over the
//! parts of a head and its fields, and what is written is read by the response grammar of `httparse`
//! with that status and those fields.
//! Stands on `lt_bytes`; `httparse` lends its grammar to the law alone.
#![tactic(auto)]

mod fields;
pub mod laws;
mod phrases;
mod reply;

pub use fields::Fields;
pub use phrases::phrase;
pub use reply::{Spelling, error_reply, reply_head};
