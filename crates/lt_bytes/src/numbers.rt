//! Numbers that are read from digits.
ghost use Rattle.std.specs.Prelude.{◌≡◌, ◌≤◌};
ghost use Rattle.lt_bytes.specs.Numbers.{fitting, number_of};

const DECIMAL: u32 = 10;

const HEXADECIMAL: u32 = 16;

/// The first number that 64 bits do not hold.
const TOO_LARGE: u128 = 0x1_0000_0000_0000_0000;

/// What digits come to.
#[derive(Clone, Copy, Debug, PartialEq, Eq)]
pub enum Number {
    /// The number that the digits write. Leading zeros count for nothing.
    Value(u64),
    /// There is no byte, or one that is no digit.
    NotANumber,
    /// Each byte is a digit, and the number is 2^64 or more.
    Overflow,
}

/// Reads decimal digits.
pub fn read_decimal(bytes: &[u8]) -> Number
    ensures { result ≡ number_of 10 bytes.now }
{
    read_digits(bytes, DECIMAL)
}

/// Reads hexadecimal digits, in either case.
pub fn read_hex(bytes: &[u8]) -> Number
    ensures { result ≡ number_of 16 bytes.now }
{
    read_digits(bytes, HEXADECIMAL)
}

fn read_digits(bytes: &[u8], base: u32) -> Number
    requires low { 2 ≤ base }
    requires high { base ≤ 16 }
    ensures { result ≡ number_of base bytes.now }
{
    if bytes.is_empty() {
        return Number::NotANumber;
    }
    let mut value: u128 = 0;
    for byte in bytes {
        let Some(digit) = char::from(*byte).to_digit(base) else {
            return Number::NotANumber;
        };
        value = (value * u128::from(base) + u128::from(digit)).min(TOO_LARGE);
    }
    fitting(value)
}

fn fitting(value: u128) -> Number
    ensures { result ≡ fitting value }
{
    if value < TOO_LARGE {
        Number::Value(value as u64)
    } else {
        Number::Overflow
    }
}
