//! The server: it keeps a table of clients, and takes one turn at a time over a net and files.
//!
//! A turn takes the next event of the net and does all that is due for it. `Server::turn` keeps `Serves` of
//! `server_model`: what each client took is the prefix of a stream that its own bytes and the files determine.
//! Closing is explicit: a server can't be dropped.
#![tactic(auto)]

mod client;
mod lending;
mod places;
mod reply;
mod server;
mod settle;
mod step;
mod table;
mod turn;

pub use server::{Held, SPARE_BUFFERS, Server};
pub use turn::Turn;
