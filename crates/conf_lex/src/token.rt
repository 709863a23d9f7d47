//! Tokens.

use lt_bytes::Text;

/// What a token is.
#[derive(Drop)]
pub enum TokenKind {
    /// A letter, then letters, digits, `_`, `-` and `.`.
    Word(Text),
    /// What stands between the quotation marks, each `\"` as a quotation mark alone.
    Text(Text),
    /// A number of 1 to 18 digits.
    Number(i64),
    /// One of `signs`.
    Sign(u8),
}

/// A token.
#[derive(Drop)]
pub struct Token {
    pub kind: TokenKind,
    /// The line of its first byte, counted from 1; 2^32 - 1 for any later line.
    pub line: u32,
}

/// The numbers of the signs.
pub mod signs {
    /// `=`
    pub const ASSIGN: u8 = 0;
    /// `+=`
    pub const APPEND: u8 = 1;
    /// `=>`
    pub const ARROW: u8 = 2;
    /// `+`
    pub const PLUS: u8 = 3;
    /// `,`
    pub const COMMA: u8 = 4;
    /// `(`
    pub const OPEN_ARRAY: u8 = 5;
    /// `)`
    pub const CLOSE_ARRAY: u8 = 6;
    /// `{`
    pub const OPEN_BLOCK: u8 = 7;
    /// `}`
    pub const CLOSE_BLOCK: u8 = 8;
    /// `[`
    pub const OPEN_NAME: u8 = 9;
    /// `]`
    pub const CLOSE_NAME: u8 = 10;
    /// `$`
    pub const DOLLAR: u8 = 11;
    /// `==`
    pub const EQUAL: u8 = 12;
    /// `!=`
    pub const NOT_EQUAL: u8 = 13;
    /// `=~`
    pub const MATCH: u8 = 14;
    /// `!~`
    pub const NO_MATCH: u8 = 15;
    /// `=^`
    pub const PREFIX: u8 = 16;
    /// `=$`
    pub const SUFFIX: u8 = 17;
}
