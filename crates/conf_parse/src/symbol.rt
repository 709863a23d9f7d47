//! Tokens as terminals of the grammar.
ghost use Rattle.std.specs.Prelude.{◌≡◌, IfOk};
ghost use Rattle.conf_parse.specs.Symbols as spec;

use conf_lex::{TokenKind, signs};
use conf_value::Op;
use lt_bytes::{NoMemory, Text};
use std::alloc::Global;

/// A sign of the grammar.
#[derive(Clone, Copy)]
pub enum Sign {
    Assign,
    Append,
    Arrow,
    Plus,
    Comma,
    OpenArray,
    CloseArray,
    OpenBlock,
    CloseBlock,
    OpenName,
    CloseName,
    Dollar,
    Compare(Op),
}

/// What a word may be besides the group of a condition.
#[derive(Clone, Copy)]
pub enum Role {
    Else,
    Include,
    /// `enable` or `disable`, which are texts.
    Switch,
    /// A key whose first part is `var`.
    Variable,
    /// Any other key with a dot.
    Setting,
    /// A key without a dot, kept with `var.` before it.
    Bare,
    /// A word that is no key: `include_shell`, or one with an empty part.
    Other,
}

/// A terminal of the grammar.
#[derive(Drop)]
pub enum Symbol {
    Word(Role, Text),
    Text(Text),
    Number(i64),
    Sign(Sign),
    /// A sign that `conf_lex` does not number.
    Unknown,
}

fn sign_of(number: u8) -> Option<Sign>
    ensures { result ≡ spec.sign_of number }
{
    match number {
        signs::ASSIGN => Some(Sign::Assign),
        signs::APPEND => Some(Sign::Append),
        signs::ARROW => Some(Sign::Arrow),
        signs::PLUS => Some(Sign::Plus),
        signs::COMMA => Some(Sign::Comma),
        signs::OPEN_ARRAY => Some(Sign::OpenArray),
        signs::CLOSE_ARRAY => Some(Sign::CloseArray),
        signs::OPEN_BLOCK => Some(Sign::OpenBlock),
        signs::CLOSE_BLOCK => Some(Sign::CloseBlock),
        signs::OPEN_NAME => Some(Sign::OpenName),
        signs::CLOSE_NAME => Some(Sign::CloseName),
        signs::DOLLAR => Some(Sign::Dollar),
        signs::EQUAL => Some(Sign::Compare(Op::Equal)),
        signs::NOT_EQUAL => Some(Sign::Compare(Op::NotEqual)),
        signs::MATCH => Some(Sign::Compare(Op::Match)),
        signs::NO_MATCH => Some(Sign::Compare(Op::NoMatch)),
        signs::PREFIX => Some(Sign::Compare(Op::Prefix)),
        signs::SUFFIX => Some(Sign::Compare(Op::Suffix)),
        _ => None,
    }
}

/// Whether no byte stands before the first dot, behind the last one or between two.
fn has_empty_part(word: &[u8]) -> bool
    ensures { result ≡ spec.has_empty_part spec.begins word.now }
{
    let mut begins = true;
    for byte in word {
        if *byte != b'.' {
            begins = false;
        } else if begins {
            return true;
        } else {
            begins = true;
        }
    }
    begins
}

fn role_of(word: &[u8]) -> Role
    ensures { result ≡ spec.role_of word.now }
{
    if word == b"else".as_slice() {
        Role::Else
    } else if word == b"include".as_slice() {
        Role::Include
    } else if word == b"enable".as_slice() || word == b"disable".as_slice() {
        Role::Switch
    } else if word == b"include_shell".as_slice() || has_empty_part(word) {
        Role::Other
    } else if word.starts_with(b"var.") {
        Role::Variable
    } else if word.contains(&b'.') {
        Role::Setting
    } else {
        Role::Bare
    }
}

/// The terminal that a token is.
pub fn symbol_of(alloc: Global, kind: &TokenKind) -> Result<Symbol, NoMemory>
    ensures { IfOk result (λ symbol. symbol ≡ spec.symbol_of kind.now) }
{
    match kind {
        TokenKind::Word(word) => {
            let role = role_of(word.bytes());
            Ok(Symbol::Word(role, Text::from_bytes(alloc, word.bytes())?))
        }
        TokenKind::Text(text) => Ok(Symbol::Text(Text::from_bytes(alloc, text.bytes())?)),
        TokenKind::Number(number) => Ok(Symbol::Number(*number)),
        TokenKind::Sign(number) => match sign_of(*number) {
            Some(sign) => Ok(Symbol::Sign(sign)),
            None => Ok(Symbol::Unknown),
        },
    }
}
