//! How a byte is spelled between quotes.
ghost use Rattle.std.specs.Prelude.{◌≡◌, ◌<◌, [], ◌∷◌};
ghost use Rattle.std.specs.Char.{digit_char};
ghost use Rattle.lt_bytes.specs.Quoting.{quoted_byte};

use std::marker::Model;

/// The most bytes that spell one: `\xHH`.
const MOST_BYTES: usize = 4;

/// The spelling of one byte. Contracts see it as its bytes.
#[derive(Debug, Drop)]
pub struct ByteText {
    buffer: [u8; MOST_BYTES],
    len: usize,
}

impl Model for ByteText {
    ghost use Rattle.std.specs.Prelude.{ℕ, List, take, ◌≤◌};

    ghost Value = { List ℕ };

    ghost view = { λ t. take t.len t.buffer };

    ghost invariant = { λ t. t.len ≤ 4 };
}

impl ByteText {
    /// The spelling, as a slice.
    pub fn bytes(&self) -> &[u8]
        ensures { result.now ≡ self.now }
    {
        &self.buffer[..self.len]
    }
}

/// The spelling of a byte in a quoted text: itself where it is visible ASCII or a space and neither
/// `"` nor `\`, else `\r`, `\n`, `\"`, `\\` or `\xHH` with small digits.
pub fn quoted(byte: u8) -> ByteText
    ensures { result ≡ quoted_byte byte }
{
    match byte {
        b'\r' => escaped(b'r'),
        b'\n' => escaped(b'n'),
        b'"' | b'\\' => escaped(byte),
        b' '..=b'~' => ByteText {
            buffer: [byte, 0, 0, 0],
            len: 1,
        },
        _ => ByteText {
            buffer: [b'\\', b'x', hex_digit(byte / 16), hex_digit(byte % 16)],
            len: 4,
        },
    }
}

fn escaped(sign: u8) -> ByteText
    ensures { result ≡ 92 ∷ sign ∷ [] }
{
    ByteText {
        buffer: [b'\\', sign, 0, 0],
        len: 2,
    }
}

fn hex_digit(digit: u8) -> u8
    requires { digit < 16 }
    ensures { result ≡ digit_char digit }
{
    if digit < 10 {
        b'0' + digit
    } else {
        b'a' + (digit - 10)
    }
}
