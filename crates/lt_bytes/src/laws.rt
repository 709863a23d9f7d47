//! What the definitions come to, in the subject's own words: each law is the contract of a function.
ghost use Rattle.std.specs.Prelude.{◌≡◌, ◌<◌, ◌^◌, ◌∷◌, ◌++◌, ℕ, List, All, Some, decimal};
ghost use Rattle.lt_bytes.specs.Numbers.{number_of};
ghost use Rattle.lt_bytes.specs.Quoting.{byte_unquoted, quoted, quoted_byte};
ghost use Rattle.lt_bytes.specs.Words.{IsTrimmed, trimmed};
ghost use Rattle.lt_bytes.specs.declared.numbers.Number.TheVariants.{Value};

/// The digits of a number are read as that number, and no two numbers have the same digits.
pub fn digits_are_read_back()
    ensures value { (n : ℕ) → n < 2 ^ 64 → number_of 10 (decimal n) ≡ Value n }
    ensures one { (m n : ℕ) → m < 2 ^ 64 → n < 2 ^ 64 → decimal m ≡ decimal n → m ≡ n }
{}

/// A quoted byte is read back, whatever follows it.
pub fn quoted_bytes_are_read_back()
    ensures { (b : ℕ) (rest : List ℕ) → b < 256 → byte_unquoted (quoted_byte b ++ rest) ≡ Some (b, rest) }
{}

/// Between its quotes a text is read in one way.
pub fn quoted_texts_are_read_in_one_way()
    ensures { (xs ys r s : List ℕ) → All (λ b. b < 256) xs → All (λ b. b < 256) ys
        → quoted xs ++ 34 ∷ r ≡ quoted ys ++ 34 ∷ s → (xs ≡ ys) × (r ≡ s) }
{}

/// What `trim` takes off is blanks, and it leaves none at either end.
pub fn blanks_alone_are_trimmed()
    ensures { (bytes : List ℕ) → IsTrimmed bytes (trimmed bytes) }
{}
