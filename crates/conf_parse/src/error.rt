//! Refusals.

use lt_bytes::NoMemory;
use thiserror::Error;

/// Why tokens have no tree.
#[derive(Clone, Copy, Debug, PartialEq, Eq, Error)]
pub enum ParseError {
    #[error("line {line}: not the syntax of a configuration")]
    Grammar { line: u32 },
    #[error("line {line}: nested too deep")]
    Deep { line: u32 },
    #[error("out of memory")]
    NoMemory,
}

impl From<NoMemory> for ParseError {
    ghost use Rattle.std.specs.Prelude.{◌≡◌};
    ghost use Rattle.conf_parse.specs.declared.error.ParseError.TheVariants as the;

    ghost from_gives = { λ _ e. e ≡ the.NoMemory };

    fn from(_: NoMemory) -> ParseError {
        ParseError::NoMemory
    }
}
