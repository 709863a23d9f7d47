//! The text of a script, which is a recorded run: the files that are there, which calls fail, which clients arrive, what
//! they send, and when how much may be written to them. `parse_script` reads the text, `print_script` writes it; `script_net` plays
//! what it says. Promised: the reader takes exactly the texts of the grammar, and names the first line that is outside;
//! what is printed of a script is read as that script. Stands on `lt_bytes` and on the addresses of `lt_world`.
#![tactic(auto)]

mod fields;
pub mod laws;
mod limits;
mod lines;
mod parse;
mod printing;
mod quoting;
mod script;

pub use limits::SCRIPT_LIMIT;
pub use parse::parse_script;
pub use printing::print_script;
pub use script::{FaultCall, Name, Script, ScriptError, ScriptFault, ScriptFile, Step};
