//! The commands of the program, over texts, a net, files and an output that the caller names: `replay` serves the
//! clients of a script, `-t` checks a configuration, `-p` prints one, `bench` serves the clients of a generated script. No
//! word of how standard output or a socket is reached.
//! Promised, by `offline`: each client takes a prefix of its own stream, and all of it where it is closed clean; what
//! is due for an event follows in the same turn; each status comes for its cause, and the first refusal is answered.
//! Stands on `server_core` for the turns, `script_net` for the script's net and report, `script_gen` for the generated
//! script and the summary, `conf_eval` for loading, and on `conf_parse` for the printed form.
#![tactic(auto)]

mod answering;
mod benching;
mod commands;
mod explanation;
mod loading;
mod playing;
mod printing;
mod reading;
mod run;
mod serving;
mod status;
mod warnings;
mod words;

pub use answering::answer;
pub use commands::offline;
pub use explanation::Explanation;
pub use loading::{CONF, load_conf};
pub use serving::server_of;
pub use status::Status;
pub use warnings::load_warned;
