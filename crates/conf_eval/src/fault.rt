//! What is loaded, and why a configuration is refused.

use crate::pattern::Pattern;
use conf_value::Config;
use lt_bytes::List;

/// What can be wrong with a configuration. Its number is the variant's.
#[derive(Clone, Copy, Debug, PartialEq, Eq)]
pub enum ConfKind {
    /// A text is not UTF-8.
    NotUtf8 = 1,
    /// No file goes on with a token.
    Grammar,
    /// A condition is on no field that is known.
    UnknownField,
    /// `=` names a key that the block has set.
    Duplicate,
    /// A variable is set nowhere so far.
    UnknownVariable,
    /// Two values of different kinds are joined.
    Mixed,
    /// A sum passes 64 bits.
    Overflow,
    /// A value is of another kind than its key, or an include's name is no text.
    WrongType,
    /// A value breaks the rule of its key.
    BadValue,
    /// A pattern is none.
    PatternRefused,
    /// There is no text of an include's name.
    IncludeMissing,
    /// The text of an include cannot be read.
    TextFault,
    /// The seventeenth include inside one another.
    IncludeDeep,
    /// The texts together have more than `MAX_TEXTS` bytes.
    TooLong,
    /// Too many blocks or patterns.
    TooMany,
    /// The global block doesn't set the document root.
    NoRoot,
    /// Blocks or arrays are nested too deep.
    Deep,
}

/// The first fault of a configuration, with its place: files are numbered from 0 in the order in which they are
/// fetched, lines from 1.
#[derive(Clone, Copy, Debug, PartialEq, Eq)]
pub struct ConfFault {
    pub kind: ConfKind,
    pub file: u32,
    pub line: u32,
}

/// A configuration that was loaded, and the patterns of its conditions and rules by their numbers, which count from 0.
#[derive(Drop)]
pub struct Loaded {
    pub config: Config,
    pub patterns: List<Pattern>,
}

/// Why nothing was loaded.
#[derive(Clone, Copy, Debug, PartialEq, Eq)]
pub enum LoadError {
    /// The configuration has this fault.
    Conf(ConfFault),
    /// There is no text of the name.
    RootMissing,
    /// The text of the name cannot be read.
    RootFailed,
    NoMemory,
}
