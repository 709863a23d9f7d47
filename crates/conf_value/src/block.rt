//! Blocks and what they set.

use crate::{Condition, Value};
use lt_bytes::{List, Text};

/// A key that a block sets.
#[derive(Drop)]
pub struct Setting {
    pub key: Text,
    pub value: Value,
    /// The number of the first pattern of a rule list; 0 for any other key.
    pub first_pattern: u32,
}

/// A block. Block 0 is the global one and its own parent.
#[derive(Drop)]
pub struct Block {
    /// The number of the block around this one.
    pub parent: u32,
    /// The number of the branch just before this one of the same `else` chain.
    pub chain: Option<u32>,
    /// `None` for the global block and for a bare `else`.
    pub condition: Option<Condition>,
    /// Every key that the block sets, variables among them, in the order in which it first sets them.
    pub settings: List<Setting>,
}

/// A key that is set and has no effect, with the number of its file and its line.
#[derive(Drop)]
pub struct Warning {
    pub key: Text,
    pub file: u32,
    pub line: u32,
}

/// A whole configuration.
#[derive(Drop)]
pub struct Config {
    /// The blocks in the order in which they open.
    pub blocks: List<Block>,
    pub warnings: List<Warning>,
}
