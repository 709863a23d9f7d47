//! Tests of the calls of a connection, and of a server and of the program's calls where files, the net or the output
//! fail. Nothing here is for use.
//! Runs in which nothing fails are the rows of `worked_rows`.
//! The net of a run is `ScriptNet` of `script_net`, or `Failing`, which tells nothing.
#![tactic(auto)]

#[cfg(test)]
mod calls;
#[cfg(test)]
mod connections;
#[cfg(test)]
mod failing;
#[cfg(test)]
mod tests;
