//! Tests of the messages of HTTP: request targets, heads, bodies and replies. Nothing here is for use.
//!
//! Each row is what is sent or asked, and what it is read or answered as by RFC 9110, RFC 9112 and RFC 3986.
#![tactic(auto)]

#[cfg(test)]
mod bodies;
#[cfg(test)]
mod heads;
#[cfg(test)]
mod replies;
#[cfg(test)]
mod targets;
