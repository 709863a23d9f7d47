//! The script of a benchmark run, and its summary in three numbers.
//! `generate` makes a script of as many clients as are asked for: each asks for one of four files and takes the reply in
//! pieces of a size of its own, both drawn by a recurrence. `summary` says of a net how many links it had, how many were
//! closed clean, and how many bytes they took.
//! Promised: the script is its definition, a text spells it, and it makes no call of the net fail; the summary is that of
//! the trace. Stands on `script_net`, `lt_script`, `lt_world` and `lt_bytes`.
#![tactic(auto)]

mod generating;
pub mod laws;
mod summing;

pub use generating::{CLIENT_LIMIT, generate};
pub use summing::summary;
