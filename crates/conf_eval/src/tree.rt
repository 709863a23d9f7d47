//! The tree of a text, or its first fault.
ghost use Rattle.std.specs.Prelude.{◌≡◌, ◌≢◌, Ok, Err, IfErr};
ghost use Rattle.conf_eval.specs.Load.{tree_of};
ghost use Rattle.conf_eval.specs.Trees.{IsTree, IsOfText};

use crate::ConfKind;
use conf_lex::{LexError, lex};
use conf_parse::{ParseError, Tree, parse};
use std::alloc::Global;

/// Why a text has no tree.
#[derive(Clone, Copy, Debug, PartialEq, Eq)]
pub enum TreeError {
    /// A fault of this kind on this line.
    Fault { kind: ConfKind, line: u32 },
    NoMemory,
}

/// The tree of a text.
pub fn tree(alloc: Global, bytes: &[u8]) -> Result<Tree, TreeError>
    ensures exact { IsTree (tree_of bytes.now) result }
    ensures kinds { IfErr result (λ e. IsOfText e) }
{
    let tokens = match lex(alloc, bytes) {
        Ok(tokens) => tokens,
        Err(LexError::NotUtf8 { line }) => return Err(fault(ConfKind::NotUtf8, line)),
        Err(LexError::Grammar { line }) => return Err(fault(ConfKind::Grammar, line)),
        Err(LexError::NoMemory) => return Err(TreeError::NoMemory),
    };
    match parse(alloc, &tokens) {
        Ok(tree) => Ok(tree),
        Err(ParseError::Grammar { line }) => Err(fault(ConfKind::Grammar, line)),
        Err(ParseError::Deep { line }) => Err(fault(ConfKind::Deep, line)),
        Err(ParseError::NoMemory) => Err(TreeError::NoMemory),
    }
}

fn fault(kind: ConfKind, line: u32) -> TreeError
    ensures { result ≡ TreeError.Fault kind line }
{
    TreeError::Fault { kind, line }
}
