//! The digits of a number.
ghost use Rattle.std.specs.Prelude.{◌≡◌, ◌<◌, ◌*◌, ◌+◌, pos, nat_lt, true};
ghost use Rattle.std.specs.Char.{digit_value};
ghost use Rattle.conf_lex.specs.Class.{class, is_digit};

use std::marker::Model;

/// The most digits that a number has.
pub const MAX_DIGITS: u32 = 18;

/// The digits of a number so far. Contracts see how many they are, and their value.
#[derive(Drop)]
pub struct Digits {
    count: u32,
    value: u64,
}

impl Model for Digits {
    ghost use Rattle.std.specs.Prelude.{ℕ, ◌≤◌, ◌<◌, ◌^◌};

    ghost Value = { ℕ × ℕ };

    ghost view = { λ d. (d.count, d.value) };

    ghost invariant = { λ d. (d.count ≤ 18) × (d.value < 10 ^ d.count) };
}

impl Digits {
    pub fn new() -> Digits
        ensures { result ≡ (0, 0) }
    {
        Digits { count: 0, value: 0 }
    }

    pub fn has_room(&self) -> bool
        ensures { result ≡ nat_lt self.now.0 MAX_DIGITS }
    {
        self.count < MAX_DIGITS
    }

    pub fn with(self, digit: u8) -> Digits
        requires room { self.0 < MAX_DIGITS }
        requires is_digit { is_digit (class digit) ≡ true }
        ensures { result ≡ (self.0 + 1, self.1 * 10 + digit_value digit) }
    {
        let Digits { count, value } = self;
        Digits {
            count: count + 1,
            value: value * 10 + u64::from(digit - b'0'),
        }
    }

    pub fn number(&self) -> i64
        ensures { result ≡ pos self.now.1 }
    {
        self.value as i64
    }
}
