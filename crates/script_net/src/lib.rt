//! A net in memory that plays a script, and the report of what it told. `ScriptNet` hands out the events that the
//! script lists and answers each call as the script says; `report` writes a line for each link: how it ended, and the
//! bytes that it took. Promised: the trace is at every moment one that the script plays, and the report is that of the
//! trace. Stands on `lt_script` for the script, on `lt_world` for what a net is, and on `lt_bytes`.
#![tactic(auto)]

pub mod laws;
mod letters;
mod links;
mod load;
mod net;
mod notes;
mod port;
mod ports;
mod reporting;
mod steps;
mod waiting;
mod writing;

pub use load::plan_files;
pub use net::{ScriptNet, report};
pub use writing::write_all;
