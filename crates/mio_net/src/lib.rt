//! The sockets of the system, over `mio`, as a net that can wait: `MioNet`.
//! Promised: the clauses of `Net` and `Waits`; no memory is taken after `new`; links are found without a search, and an
//! event of an old link never reaches a new one; marks are set, taken away, offered and handed out exactly as `Ring` says.
//! What the system answers is not promised, and nothing is told of what comes and goes.
//! Stands on `lt_world` (the traits), `lt_bytes` (`NoMemory`) and `mio` of the kit.
#![tactic(auto)]

mod address;
mod cells;
mod families;
mod links;
mod net;
mod queue;
mod ring;
mod socket;
mod sockets;
mod system;

pub use net::MioNet;
