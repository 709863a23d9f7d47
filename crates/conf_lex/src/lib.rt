//! Configuration text to tokens, each with the line on which it begins.
//! Words, numbers, texts between quotation marks and eighteen signs, with blanks and comments between them.
//! Promised: the tokens are the ones that the text has, at each place the longest; a refusal names the line of the
//! first byte that is not UTF-8, or of the first token that is none.
//! Stands on `lt_bytes`. The syntax is that of the lighttpd 1.4 documentation, "Configuration".
#![tactic(auto)]

mod class;
mod digits;
mod error;
mod held;
pub mod laws;
mod lexer;
mod machine;
mod token;

pub use error::LexError;
pub use lexer::lex;
pub use token::{Token, TokenKind, signs};
