//! The words of a call of the program, read by `clap`: which line they are, with the names of its texts.
//! Promised: `read_line` answers a line exactly where the commands of `specs/Lines.antt` take the words, as `clap` says
//! what a command takes; every other list of words is `Usage`.
//! Stands on the kit's `clap`.
#![tactic(auto)]

mod commands;
mod line;

pub use line::{Line, WordsError, read_line};
