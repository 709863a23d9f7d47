//! The whole text.
ghost use Rattle.std.specs.Prelude.{[], ◌≡◌, ℕ, List, IfOk, IfErr, Ok};
ghost use Rattle.std.specs.Str.{IsUtf8};
ghost use Rattle.conf_lex.specs.Answers.{Gives, IsAnswer, IsRead, Refused, lexed};
ghost use Rattle.conf_lex.specs.Lines.{line_of};
ghost use Rattle.conf_lex.specs.Machine as spec;
ghost use Rattle.conf_lex.specs.Tokens.{Reading, Reads};
ghost use Rattle.conf_lex.specs.declared.held.Held.TheVariants.{Nothing};
ghost use Rattle.conf_lex.specs.declared.token.Token.{Token};

use crate::held::Held;
use crate::machine::{finish, next_line, step};
use crate::{LexError, Token};
use lt_bytes::List;
use std::alloc::Global;
use std::str;

fn read(alloc: Global, bytes: &[u8]) -> Result<List<Token>, LexError>
    ensures exact { Gives result (spec.run bytes.now 1 Nothing) }
{
    let mut tokens = List::new(alloc);
    let mut held = Held::Nothing;
    let mut line = 1;
    for byte in bytes {
        held = step(alloc, &mut tokens, held, *byte, line)?;
        line = next_line(*byte, line);
    }
    finish(tokens, held)
}

/// The line behind these bytes.
fn line_at_end(bytes: &[u8]) -> u32
    ensures { result ≡ line_of bytes.now }
{
    let mut line = 1;
    for byte in bytes {
        line = next_line(*byte, line);
    }
    line
}

/// The tokens of a configuration text.
pub fn lex(alloc: Global, bytes: &[u8]) -> Result<List<Token>, LexError>
    ensures tokens { IfOk result (λ ts. IsUtf8 bytes.now × Reading 1 bytes.now (Ok ts)) }
    // The tokens that the text has are the answer, unless memory runs out.
    ensures only { (ts : List Token) (m : ℕ) → IsUtf8 bytes.now → Reads 1 bytes.now ts m [] → IsRead ts result }
    ensures refused { IfErr result (λ e. Refused bytes.now e) }
    // The same as a function of the text.
    ensures computed { IsAnswer result (lexed bytes.now) }
{
    match str::from_utf8(bytes) {
        Ok(_) => read(alloc, bytes),
        Err(fault) => Err(LexError::NotUtf8 {
            line: line_at_end(&bytes[..fault.valid_up_to()]),
        }),
    }
}
