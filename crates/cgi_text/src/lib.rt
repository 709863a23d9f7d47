//! What a gateway is asked, and the head of what it answers, as CGI has them (RFC 3875; FastCGI
//! Specification 1.0, section 3.4).
//! Promised: the parameters of a request are exactly the pairs of the definition, in its order, and
//! are read back as name-value pairs; the head of an answer is a function of its bytes, with each
//! refusal exactly where it is due; of the fields of an answer exactly those are passed on that the
//! server does not write itself.
//! Stands on `http_head` and `httparse` (the field lines), `http_header`, `http_reply` (`Fields`),
//! `lt_world` (`Address`) and `lt_bytes`.
#![tactic(auto)]

mod address;
mod head;
pub mod laws;
mod pairs;
mod passed;
mod request;
mod state;
mod status;
mod values;
mod variables;

pub use address::push_ip;
pub use head::{CgiHead, CgiRefusal, read_cgi_head, section_end};
pub use passed::{passed_fields, stated_length};
pub use request::GateRequest;
pub use state::GateState;
pub use variables::params;

#[cfg(test)]
mod head_tests;
#[cfg(test)]
mod tests;
