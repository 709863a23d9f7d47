//! A call that serves clients over a net that waits: `lighttpd -f CONF`. The configuration is loaded, its warnings and
//! the address are put out, the server listens, and takes turns until its net is over; where nothing is ready it waits.
//! Promised, by `serve`, over every net and files that tell: each client takes a prefix of its own stream, and all of it
//! where it is closed clean; what is due for an event follows in the same turn; each status comes for its cause.
//! Stands on `server_core` for the turns, on `lt_commands` for the configuration and the statuses, on `command_words`.
#![tactic(auto)]

mod clients;
mod commands;
mod listening;
mod loaded;
mod run;

pub use commands::serve;
