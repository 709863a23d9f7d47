//! Laws on trees, tokens and the printed form. The functions do nothing: their clauses are what they are for.
ghost use Rattle.std.specs.Prelude.{◌≡◌, [], ℕ, List};
ghost use Rattle.std.specs.Str.{IsUtf8};
ghost use Rattle.conf_lex.specs.Tokens.{Reads};
ghost use Rattle.conf_lex.specs.declared.token.Token.{Token};
ghost use Rattle.conf_parse.specs.Grammar.{Spells};
ghost use Rattle.conf_parse.specs.declared.parser.TheConstants.{MAX_NESTING};
ghost use Rattle.conf_parse.specs.Reread.{IsReread};
ghost use Rattle.conf_parse.specs.declared.tree.Tree.{Tree};

/// A list of tokens is spelled by at most one tree.
pub fn one_tree()
    ensures { (room : ℕ) (a b : Tree) (tokens : List Token) → Spells room a tokens → Spells room b tokens → a ≡ b }
{}

/// A tree that is spelled by the tokens of a text is read again from its printed form, but for its line numbers.
pub fn printed_is_reread()
    ensures { (text : List ℕ) (tokens : List Token) (last_line : ℕ) (tree : Tree) → IsUtf8 text → Reads 1 text tokens last_line [] → Spells 64 tree tokens → IsReread tree }
{}

/// How deep blocks and arrays nest.
pub fn nesting_limit()
    ensures { MAX_NESTING ≡ 64 }
{}
