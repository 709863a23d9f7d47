//! Real files and named texts, over the file system of a runtime. This is the trusted edge: what the system answers
//! is believed, and nothing is told of content.
//! Promised: each call keeps the clauses of its trait; a fault is answered only with a count that rose; no two opened
//! files share a number; a read fills its buffer with the bytes of its range, or fails; a text is whole or none.
//! Stands on `lt_world` (the traits) and the kit's `slab` (values under keys that are used again).
#![tactic(auto)]

mod disk_files;
mod disk_texts;
mod last_found;
mod looking;
mod names;
mod open_files;
mod pieces;
mod ranges;
mod refusals;

pub use disk_files::DiskFiles;
pub use disk_texts::DiskTexts;

#[cfg(test)]
mod tests;
