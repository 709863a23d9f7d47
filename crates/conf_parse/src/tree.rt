//! The tree of a configuration text.

use conf_value::Op;
use lt_bytes::{List, Text};

/// A whole text.
#[derive(Drop)]
pub struct Tree {
    pub statements: List<Statement>,
}

/// A statement.
#[cycle(statement)]
#[derive(Drop)]
pub struct Statement {
    /// The line of its first token.
    pub line: u32,
    pub what: What,
}

/// What a statement does.
#[cycle(statement)]
#[derive(Drop)]
pub enum What {
    /// `key = value`, or `key += value` where `add` holds. A key without a dot is kept as `var.` and the key.
    Set {
        key: Text,
        add: bool,
        value: List<Term>,
    },
    /// `include value`
    Include(List<Term>),
    /// Blocks that are joined by `else`.
    Branches(List<Branch>),
}

/// A block of a chain.
#[cycle(statement)]
#[derive(Drop)]
pub struct Branch {
    /// The line of its first token: the `$`, or the `else` of a further branch.
    pub line: u32,
    /// `None` for a bare `else`, which ends its chain.
    pub condition: Option<RawCondition>,
    pub body: List<Statement>,
}

/// `$group["name"] op "text"`
#[derive(Drop)]
pub struct RawCondition {
    pub group: Text,
    pub name: Text,
    pub op: Op,
    pub text: Text,
}

/// A term of a value; the terms of a value are joined by `+`.
#[cycle(term)]
#[derive(Drop)]
pub enum Term {
    /// A text; the words `enable` and `disable` too.
    Text(Text),
    Number(i64),
    /// A variable, by its key.
    Var(Text),
    Array(List<Item>),
}

/// An item of an array.
#[cycle(term)]
#[derive(Drop)]
pub struct Item {
    pub key: Option<Text>,
    pub value: List<Term>,
}
