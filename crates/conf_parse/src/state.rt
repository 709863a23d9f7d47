//! What is being read between two terminals.

use crate::stack::Stack;
use crate::value::Reading;
use crate::{Branch, RawCondition, Statement};
use conf_value::Op;
use lt_bytes::{List, Text};

/// Statements that are being read, and how many blocks and arrays may be nested in them.
#[derive(Drop)]
pub struct Body {
    pub room: u32,
    pub done: List<Statement>,
}

/// A chain that is being read, and the line of its first token.
#[derive(Drop)]
pub struct Chain {
    pub line: u32,
    pub branches: List<Branch>,
}

/// A branch that is open, and what stands around it.
#[derive(Drop)]
pub struct Frame {
    pub body: Body,
    pub chain: Chain,
    /// The line of the branch.
    pub line: u32,
    pub condition: Option<RawCondition>,
}

/// What a value is read for.
#[derive(Drop)]
pub enum Target {
    /// This key, which `+=` stood behind where the second field holds.
    Set(Text, bool),
    Include,
}

/// What comes next in a condition, behind what is known of it.
#[derive(Drop)]
pub enum Part {
    Group,
    OpenName(Text),
    Name(Text),
    CloseName(Text, Text),
    Op(Text, Text),
    Text(Text, Text, Op),
    /// The condition is whole; its block opens next.
    Block(RawCondition),
}

/// What is being read. The open branches stand last, the innermost first.
#[derive(Drop)]
pub enum State {
    /// A statement, or the end of the body.
    Between(Body, Stack<Frame>),
    /// Behind a key on this line.
    Key(Body, u32, Text, Stack<Frame>),
    /// In the value of the statement on this line.
    Value(Body, u32, Target, Reading, Stack<Frame>),
    /// Behind the `$` of the chain's branch on this line.
    Head(Body, Chain, u32, Part, Stack<Frame>),
    /// Behind a block that `else` may follow.
    After(Body, Chain, Stack<Frame>),
    /// Behind an `else` on this line.
    Else(Body, Chain, u32, Stack<Frame>),
}
