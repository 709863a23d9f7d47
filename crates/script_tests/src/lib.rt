//! Tests of bytes and their spellings, of the outside in memory, of the text of a script, of the net that plays it, and of
//! generated scripts with the summary of a run.
//! Nothing here is for use.
//!
//! Each row is a text with what it is read or printed as, or what each call on a net or files in memory answers.
#![tactic(auto)]

#[cfg(test)]
mod bytes;
#[cfg(test)]
mod generated;
#[cfg(test)]
mod outside;
#[cfg(test)]
mod plays;
#[cfg(test)]
mod scripts;
