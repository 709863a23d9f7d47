//! Bytes by what they may stand for.
ghost use Rattle.std.specs.Prelude.{◌≡◌};
ghost use Rattle.conf_lex.specs.Class as spec;

use crate::signs;

/// What a byte outside texts and comments may stand for.
#[derive(Clone, Copy)]
pub enum Class {
    /// Space, tab and CR.
    Blank,
    /// LF.
    Feed,
    /// `#`
    Hash,
    Letter,
    Digit,
    /// `_`, `-` and `.`: only inside a word.
    Joint,
    /// `"`
    Quote,
    /// `\`
    Backslash,
    /// `=`
    Equal,
    /// `+`
    Plus,
    /// `!`: only with `=` or `~` behind it.
    Not,
    /// `>`: only behind `=`.
    Greater,
    /// `~`: only behind `=` or `!`.
    Tilde,
    /// `^`: only behind `=`.
    Caret,
    /// `$`
    Dollar,
    /// A sign that no other begins with, by its number.
    Single(u8),
    /// Any other byte, which begins no token.
    Other,
}

pub fn class_of(byte: u8) -> Class
    ensures { result ≡ spec.class byte }
{
    match byte {
        b'\n' => Class::Feed,
        b' ' | b'\t' | b'\r' => Class::Blank,
        b'#' => Class::Hash,
        b'a'..=b'z' | b'A'..=b'Z' => Class::Letter,
        b'0'..=b'9' => Class::Digit,
        b'_' | b'-' | b'.' => Class::Joint,
        b'"' => Class::Quote,
        b'\\' => Class::Backslash,
        b'=' => Class::Equal,
        b'+' => Class::Plus,
        b'!' => Class::Not,
        b'>' => Class::Greater,
        b'~' => Class::Tilde,
        b'^' => Class::Caret,
        b'$' => Class::Dollar,
        b',' => Class::Single(signs::COMMA),
        b'(' => Class::Single(signs::OPEN_ARRAY),
        b')' => Class::Single(signs::CLOSE_ARRAY),
        b'{' => Class::Single(signs::OPEN_BLOCK),
        b'}' => Class::Single(signs::CLOSE_BLOCK),
        b'[' => Class::Single(signs::OPEN_NAME),
        b']' => Class::Single(signs::CLOSE_NAME),
        _ => Class::Other,
    }
}

pub fn in_word(class: Class) -> bool
    ensures { result ≡ spec.in_word class }
{
    matches!(class, Class::Letter | Class::Digit | Class::Joint)
}

pub fn is_digit(class: Class) -> bool
    ensures { result ≡ spec.is_digit class }
{
    matches!(class, Class::Digit)
}

pub fn is_feed(class: Class) -> bool
    ensures { result ≡ spec.is_feed class }
{
    matches!(class, Class::Feed)
}

/// The sign that this byte is where no longer one stands.
pub fn alone(class: Class) -> Option<u8>
    ensures { result ≡ spec.alone class }
{
    match class {
        Class::Equal => Some(signs::ASSIGN),
        Class::Plus => Some(signs::PLUS),
        Class::Dollar => Some(signs::DOLLAR),
        Class::Single(sign) => Some(sign),
        _ => None,
    }
}

/// The sign that these two bytes are.
pub fn double(first: Class, second: Class) -> Option<u8>
    ensures { result ≡ spec.double first second }
{
    match (first, second) {
        (Class::Plus, Class::Equal) => Some(signs::APPEND),
        (Class::Equal, Class::Greater) => Some(signs::ARROW),
        (Class::Equal, Class::Equal) => Some(signs::EQUAL),
        (Class::Not, Class::Equal) => Some(signs::NOT_EQUAL),
        (Class::Equal, Class::Tilde) => Some(signs::MATCH),
        (Class::Not, Class::Tilde) => Some(signs::NO_MATCH),
        (Class::Equal, Class::Caret) => Some(signs::PREFIX),
        (Class::Equal, Class::Dollar) => Some(signs::SUFFIX),
        _ => None,
    }
}
