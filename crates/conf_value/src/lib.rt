//! The values of a configuration and the blocks that set them.
//! A value is a text, a number or an array of pairs; a block is the global one or stands under a condition.
//! Plain data, which other crates read, make and give a meaning: the condition fields are lighttpd's, the operators
//! `==`, `!=`, `=~`, `!~`, `=^` and `=$`.
//! Stands on `lt_bytes`.
#![tactic(auto)]

mod address;
mod array;
mod block;
mod condition;
mod copying;
mod joining;
mod places;
mod truth;
mod value;

pub use address::{Network, read_address, read_network};
pub use array::{add_pair, array_of};
pub use block::{Block, Config, Setting, Warning};
pub use condition::{Condition, Field, Op};
pub use joining::{JoinFault, join};
pub use truth::Truth;
pub use value::{Pair, Value};

#[cfg(test)]
mod tests;
