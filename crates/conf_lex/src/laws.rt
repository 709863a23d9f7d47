//! Laws on the tokens of a text. The functions do nothing: their clauses are what they are for.
ghost use Rattle.std.specs.Prelude.{◌≡◌, [], ℕ, List, All};
ghost use Rattle.conf_lex.specs.declared.digits.TheConstants.{MAX_DIGITS};
ghost use Rattle.conf_lex.specs.Lines.{StandsIn};
ghost use Rattle.conf_lex.specs.Tokens.{Reads};
ghost use Rattle.conf_lex.specs.declared.token.Token.{Token};

/// Each token of a text stands on the line of its first byte.
pub fn tokens_stand_on_their_lines()
    ensures { (text : List ℕ) (tokens : List Token) (last_line : ℕ) → Reads 1 text tokens last_line [] → All (StandsIn text) tokens }
{}

/// The most digits that a number has.
pub fn digit_limit()
    ensures { MAX_DIGITS ≡ 18 }
{}
