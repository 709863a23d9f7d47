//! The outside of the server: sockets, files, texts, input and output, each as a trait whose clauses say what its
//! answers mean, and forms of them in memory.
//! Promised: what each call changes and what each answer tells; that a failure comes only with a count that rose; that
//! the memory forms tell all they hold and fail only where it was planned.
//! Stands on `lt_bytes` (`Text`, `NoMemory`).
#![tactic(auto)]

mod content;
mod fault;
mod files;
pub mod laws;
mod log;
mod mem_files;
mod mem_sink;
mod mem_texts;
mod net;
mod places;
mod plan;
mod read_log;
mod slots;
mod streams;
mod texts;
mod waits;

pub use fault::Fault;
pub use files::{Call, FileCall, FileId, Files, Found, Opened};
pub use mem_files::MemFiles;
pub use mem_sink::MemSink;
pub use mem_texts::MemTexts;
pub use net::{Address, Dialled, Ending, Event, Got, Link, Net, NextKind, Owner, Took};
pub use read_log::ReadLog;
pub use streams::{Sink, Source};
pub use texts::{Fetch, FetchKind, Fetched, Texts};
pub use waits::Waits;
