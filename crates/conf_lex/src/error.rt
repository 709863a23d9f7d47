//! Refusals.

use lt_bytes::NoMemory;
use thiserror::Error;

/// Why a text has no tokens.
#[derive(Clone, Copy, Debug, PartialEq, Eq, Error)]
pub enum LexError {
    #[error("line {line}: not UTF-8")]
    NotUtf8 { line: u32 },
    #[error("line {line}: no token")]
    Grammar { line: u32 },
    #[error("out of memory")]
    NoMemory,
}

impl From<NoMemory> for LexError {
    ghost use Rattle.std.specs.Prelude.{◌≡◌};
    ghost use Rattle.conf_lex.specs.declared.error.LexError.TheVariants as the;

    ghost from_gives = { λ _ e. e ≡ the.NoMemory };

    fn from(_: NoMemory) -> LexError {
        LexError::NoMemory
    }
}
