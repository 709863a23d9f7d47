//! Values.

use lt_bytes::{List, Text};

/// What a setting is set to.
#[cycle(value)]
#[derive(Drop)]
pub enum Value {
    Text(Text),
    Number(i64),
    Array(List<Pair>),
}

/// An entry of an array.
#[cycle(value)]
#[derive(Drop)]
pub struct Pair {
    /// `None` where the entry was written without a key.
    pub key: Option<Text>,
    pub value: Value,
}
