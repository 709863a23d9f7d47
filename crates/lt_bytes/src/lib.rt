//! Bytes, words and numbers: what every other crate spells and reads text with.
//! Promised: each call is exact. A number is read where its bytes are digits and fit 64 bits,
//! written digits are read back, a quoted byte is read back, and want of memory changes nothing.
//! `Text` and `List` stand over `Vec`, and contracts see them as lists; a type may lead back to
//! itself through a `List`. Stands on std alone.
#![tactic(auto)]

mod decimal_digits;
pub mod laws;
mod list;
mod memory;
mod numbers;
mod quoting;
mod text;
mod words;

pub use decimal_digits::{Digits, decimal};
pub use list::List;
pub use memory::NoMemory;
pub use numbers::{Number, read_decimal, read_hex};
pub use quoting::{ByteText, quoted};
pub use text::Text;
pub use words::{lower, same_word, trim};
