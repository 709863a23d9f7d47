//! The target of an HTTP/1.x request (RFC 9112, section 3.2): its origin form, the decoded path in
//! normal form, the query, and the authority that an absolute form has.
//! A target is read exactly by its definition or refused, and a refusal takes no memory. A path in
//! normal form begins with a slash, has no empty segment, `.` or `..`, and never climbs above the
//! root. The crate stands on `lt_bytes` and on `percent_encoding`, which decodes the path.
#![tactic(auto)]

pub mod laws;
mod path;
mod read;

pub use path::normal;
pub use read::{Target, TargetRefusal, authority, read_target};
