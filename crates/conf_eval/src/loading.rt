//! What was loaded so far.

use crate::blocks::Blocks;
use conf_value::Warning;
use lt_bytes::List;
use std::alloc::Global;

/// What was loaded so far.
#[derive(Drop)]
pub struct Loading {
    pub alloc: Global,
    /// The blocks, and the patterns of their conditions and rules.
    pub built: Blocks,
    pub warnings: List<Warning>,
    /// How many texts were fetched.
    pub files: u32,
    /// How many bytes more the texts may have.
    pub room: u64,
}
