//! Tokens of a configuration to a tree, and a tree back to text.
//! Settings, includes and blocks with chains of `else`; values are sums of texts, numbers, variables and arrays.
//! Promised: a list of tokens has the one tree that spells it, or is refused at the first token with which no file
//! goes on, or at the sign that opens the 65th level; what is printed is read as the same tree.
//! Stands on `conf_lex` and `conf_value`. The syntax is that of the lighttpd 1.4 documentation, "Configuration".
#![tactic(auto)]

mod error;
pub mod laws;
mod machine;
mod parser;
mod printer;
mod stack;
mod state;
mod statements;
mod symbol;
mod tree;
mod value;

pub use error::ParseError;
pub use parser::{MAX_NESTING, parse};
pub use statements::print;
pub use tree::{Branch, Item, RawCondition, Statement, Term, Tree, What};
