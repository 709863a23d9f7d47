//! Decimal digits that are written.
ghost use Rattle.std.specs.Prelude.{◌≡◌, decimal, drop};

use std::marker::Model;

/// The greatest count of digits of a 64-bit number.
const MOST_DIGITS: usize = 20;

/// The decimal digits of a number, without a leading zero. Contracts see them as their bytes.
#[derive(Debug, Drop)]
pub struct Digits {
    buffer: [u8; MOST_DIGITS],
    start: usize,
}

impl Model for Digits {
    ghost use Rattle.std.specs.Prelude.{ℕ, List, drop, ◌≤◌};

    ghost Value = { List ℕ };

    ghost view = { λ d. drop d.start d.buffer };

    ghost invariant = { λ d. d.start ≤ 20 };
}

impl Digits {
    /// The digits, as a slice.
    pub fn bytes(&self) -> &[u8]
        ensures { result.now ≡ self.now }
    {
        &self.buffer[self.start..]
    }
}

/// Writes a number in decimal digits.
pub fn decimal(n: u64) -> Digits
    ensures { result ≡ decimal n }
{
    let mut buffer = [b'0'; MOST_DIGITS];
    let start = itoa::write_digits(n, &mut buffer, MOST_DIGITS);
    Digits { buffer, start }
}
