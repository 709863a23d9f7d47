//! A configuration is loaded: its texts are fetched, read and evaluated, from the first statement to the last.
//! Promised: `load` is a function of the trees of the texts and of what the calls on them and on the maker of patterns
//! answered (`specs/Load.antt`): the blocks that were loaded, in form, with their patterns and the warnings in order, or
//! the first fault with its file and line; the nth call on the texts asks for the nth name that is met, the nth on the
//! maker for the nth pattern, and there is no call besides.
//! Stands on `conf_lex`, `conf_parse`, `conf_value`, `settings`, `conditions` (patterns and their maker), `rewrite` (what
//! rules need of patterns) and `lt_world` (`Texts`). Values, `+=`, blocks, includes and variables are those of the
//! lighttpd 1.4 documentation, "Configuration".
#![tactic(auto)]

mod blocks;
mod fault;
mod faults;
mod halt;
mod include;
pub mod laws;
mod limits;
mod loader;
mod loading;
mod making;
mod opened;
mod opening;
mod pattern;
mod places;
mod scope;
mod setting;
mod table;
mod tree;
mod value;
mod within;

pub use fault::{ConfFault, ConfKind, LoadError, Loaded};
pub use limits::{MAX_BLOCKS, MAX_INCLUDES, MAX_PATTERNS, MAX_TEXTS};
pub use loader::load;
pub use pattern::{Pattern, matchers};
