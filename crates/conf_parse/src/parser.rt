//! A whole file.
ghost use Rattle.std.specs.Prelude.{◌≡◌, ℕ, List, IfOk, IfErr};
ghost use Rattle.conf_lex.specs.declared.token.Token.{Token};
ghost use Rattle.conf_parse.specs.Answers.{Gives, IsAnswer, IsRead, Refused, parsed};
ghost use Rattle.conf_parse.specs.Grammar.{Spells};
ghost use Rattle.conf_parse.specs.Machine as spec;
ghost use Rattle.conf_parse.specs.Symbols.{marks};
ghost use Rattle.conf_parse.specs.declared.tree.Tree.{Tree};

use crate::machine::{finish, step};
use crate::stack::Stack;
use crate::state::{Body, State};
use crate::symbol::symbol_of;
use crate::{ParseError, Tree};
use conf_lex::Token;
use lt_bytes::List;
use std::alloc::Global;

/// How deep blocks and arrays nest, counted together.
pub const MAX_NESTING: u32 = 64;

fn read(alloc: Global, tokens: &[Token]) -> Result<Tree, ParseError>
    ensures exact { Gives tokens.now result (spec.run (marks tokens.now) (spec.start MAX_NESTING)) }
{
    let body = Body {
        room: MAX_NESTING,
        done: List::new(alloc),
    };
    let mut state = State::Between(body, Stack::new(alloc));
    let mut last = 1;
    for token in tokens {
        last = token.line;
        let symbol = symbol_of(alloc, &token.kind)?;
        state = step(alloc, state, symbol, token.line)?;
    }
    match finish(state)? {
        Some(statements) => Ok(Tree { statements }),
        None => Err(ParseError::Grammar { line: last }),
    }
}

/// The tree that the tokens spell.
pub fn parse(alloc: Global, tokens: &List<Token>) -> Result<Tree, ParseError>
    ensures found { IfOk result (λ tree. Spells MAX_NESTING tree tokens.now) }
    // The tree that is spelled is the answer, unless memory runs out.
    ensures only { (tree : Tree) → Spells MAX_NESTING tree tokens.now → IsRead tree result }
    ensures refused { IfErr result (λ e. Refused MAX_NESTING tokens.now e) }
    // The same as a function of the tokens.
    ensures computed { IsAnswer result (parsed tokens.now) }
{
    read(alloc, tokens.as_slice())
}
