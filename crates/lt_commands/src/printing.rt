//! The configuration as a tree, for printing.
ghost use Rattle.std.specs.Prelude.{◌≡◌, ◌≤◌, length};
ghost use Rattle.lt_commands.specs.Printing.{TextSays, TreeSays, SpellsTree, HasTree};
ghost use Rattle.lt_commands.specs.Reading.{ReadCause, Asks, IsOnly};
ghost use Rattle.conf_parse.specs.declared.tree.Tree.{Tree};

use crate::loading::CONF;
use crate::status::Status;
use conf_eval::{ConfFault, ConfKind, MAX_TEXTS};
use conf_lex::{LexError, lex};
use conf_parse::{ParseError, Tree, parse};
use lt_world::{Fetched, Texts};
use std::alloc::Global;

/// The tree that the configuration of this name spells. Includes are not fetched.
pub fn read_tree<X: Texts>(alloc: Global, texts: &mut X, name: &str) -> Result<Tree, Status>
    ensures says { X.tells → TreeSays result (X.texts texts.old name.now) }
    ensures only { X.tells → (tree : Tree) → HasTree (X.texts texts.old name.now) tree → IsOnly tree result }
    ensures asks { X.tells → Asks result name.now (X.calls texts.old) (X.calls texts.new) }
    ensures cause { ReadCause result (X.faults texts.old) (X.faults texts.new) }
    ensures texts { X.tells → X.texts texts.new ≡ X.texts texts.old }
    ensures faults { X.faults texts.old ≤ X.faults texts.new }
{
    match texts.fetch(name.as_bytes(), MAX_TEXTS) {
        Fetched::Text(text) => tree_of(alloc, text.bytes()),
        Fetched::Missing => Err(Status::Missing { text: CONF }),
        Fetched::Long => Err(fault(ConfKind::TooLong, 1)),
        Fetched::Failed => Err(Status::TextFault),
        Fetched::NoMemory => Err(Status::NoMemory),
    }
}

fn tree_of(alloc: Global, text: &[u8]) -> Result<Tree, Status>
    requires { length text.now ≤ MAX_TEXTS }
    ensures says { TextSays result text.now }
    ensures only { (tree : Tree) → SpellsTree text.now tree → IsOnly tree result }
{
    let tokens = match lex(alloc, text) {
        Ok(tokens) => tokens,
        Err(LexError::NotUtf8 { line }) => return Err(fault(ConfKind::NotUtf8, line)),
        Err(LexError::Grammar { line }) => return Err(fault(ConfKind::Grammar, line)),
        Err(LexError::NoMemory) => return Err(Status::NoMemory),
    };
    match parse(alloc, &tokens) {
        Ok(tree) => Ok(tree),
        Err(ParseError::Grammar { line }) => Err(fault(ConfKind::Grammar, line)),
        Err(ParseError::Deep { line }) => Err(fault(ConfKind::Deep, line)),
        Err(ParseError::NoMemory) => Err(Status::NoMemory),
    }
}

// A fault of the one file that is read.
fn fault(kind: ConfKind, line: u32) -> Status
    ensures { result ≡ Status.Conf (record { kind = kind; file = 0; line = line }) }
{
    Status::Conf(ConfFault {
        kind,
        file: 0,
        line,
    })
}
