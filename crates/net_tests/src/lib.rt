//! Tests of the net over the sockets of the system, on 127.0.0.1. Nothing here is for use.
//!
//! Each test is one thread: a net, and clients whose sockets do not block. No call waits, and each loop ends by itself.
#![tactic(auto)]

#[cfg(test)]
mod client;
#[cfg(test)]
mod server;
#[cfg(test)]
mod tests;
