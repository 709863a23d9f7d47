//! What is being read between two bytes.

use crate::class::Class;
use crate::digits::Digits;
use lt_bytes::Text;

/// The token that is being read, and the line on which it began.
#[derive(Drop)]
pub enum Held {
    Nothing,
    Comment,
    Word(u32, Text),
    Number(u32, Digits),
    Quote(u32, Text),
    /// Behind a backslash in a text.
    Backslash(u32, Text),
    /// Behind a byte that a longer sign may begin with.
    Sign(u32, Class),
}
