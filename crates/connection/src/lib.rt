//! The client's side of one connection: what it sent and is not taken up yet, the request that is to be answered, and
//! what it is still to get.
//!
//! It does no reading and no writing. Whoever has the socket brings the bytes that came (`got`, `ended`), asks what is to be
//! done next (`advance`), says how large a body may be (`accept_body`), gives the reply (`answer`), offers what is owed (`offer`) and says how much of it was taken
//! (`wrote`). Promised: each call makes of what is held just what the definitions of `server_model` make of it, so that
//! requests are taken up one at a time, in their order, each with just its body, and no byte of a later one is lost.
//! Closing is explicit: a connection can't be dropped.
#![tactic(auto)]

mod connection;
pub mod laws;
mod looking;
mod progress;
mod stage;

pub use connection::{Conn, INPUT_LIMIT};
pub use stage::Stage;
