//! The hosts of a gateway, and which of them is asked next (lighttpd documentation, `fastcgi.balance` and `proxy.balance`).
//! Promised: the choice is that of the definition; a chosen host was not tried yet, and none is chosen exactly where all were.
//! The crate stands on `std` alone.
#![tactic(auto)]

mod choosing;
pub mod laws;

pub use choosing::{Policy, choose};
