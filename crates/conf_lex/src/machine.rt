//! One byte of a text.
ghost use Rattle.std.specs.Prelude.{[], ◌∷◌, ◌++◌, ◌≡◌, ◌≤◌, ◌<◌, ℕ, List, IfOk, OnOk, Ok, nat_lt, true, pos};
ghost use Rattle.conf_lex.specs.Answers.{Steps, Gives};
ghost use Rattle.conf_lex.specs.Class as table;
ghost use Rattle.conf_lex.specs.Machine as spec;
ghost use Rattle.conf_lex.specs.Tokens.{at, line_after};
ghost use Rattle.conf_lex.specs.declared.token.Token.{Token};

use crate::class::{Class, alone, class_of, double, in_word, is_digit, is_feed};
use crate::digits::{Digits, MAX_DIGITS};
use crate::held::Held;
use crate::{LexError, Token, TokenKind};
use lt_bytes::{List, NoMemory, Text};
use std::alloc::Global;

fn push(tokens: &mut List<Token>, kind: TokenKind, line: u32) -> Result<(), NoMemory>
    ensures { OnOk result (tokens.new ≡ tokens.old ++ at kind line ∷ []) }
{
    tokens.push(Token { kind, line })
}

fn with(mut text: Text, byte: u8) -> Result<Text, NoMemory>
    ensures { IfOk result (λ t. t ≡ text ++ byte ∷ []) }
{
    text.push(byte)?;
    Ok(text)
}

/// The line behind a byte on this line.
pub fn next_line(byte: u8, line: u32) -> u32
    ensures { result ≡ line_after byte line }
{
    if is_feed(class_of(byte)) {
        line.saturating_add(1)
    } else {
        line
    }
}

fn begin(alloc: Global, class: Class, byte: u8, line: u32) -> Result<Held, LexError>
    requires { class ≡ table.class byte }
    ensures { (tokens : List Token) → Steps (spec.begin class byte line) tokens result tokens }
{
    match class {
        Class::Blank | Class::Feed => Ok(Held::Nothing),
        Class::Hash => Ok(Held::Comment),
        Class::Letter => Ok(Held::Word(line, with(Text::new(alloc), byte)?)),
        Class::Digit => Ok(Held::Number(line, Digits::new().with(byte))),
        Class::Quote => Ok(Held::Quote(line, Text::new(alloc))),
        Class::Equal | Class::Plus | Class::Not | Class::Dollar | Class::Single(_) => Ok(Held::Sign(
            line, class,
        )),
        _ => Err(LexError::Grammar { line }),
    }
}

/// The token ended before this byte, which begins anew.
fn ended(
    alloc: Global,
    tokens: &mut List<Token>,
    kind: TokenKind,
    from: u32,
    class: Class,
    byte: u8,
    line: u32,
) -> Result<Held, LexError>
    requires { class ≡ table.class byte }
    ensures { Steps (spec.ended (at kind from) (spec.begin class byte line)) tokens.old result tokens.new }
{
    push(tokens, kind, from)?;
    begin(alloc, class, byte, line)
}

fn comment(class: Class) -> Held
    ensures { spec.comment (table.is_feed class) ≡ spec.hold result }
{
    match class {
        Class::Feed => Held::Nothing,
        _ => Held::Comment,
    }
}

fn more_digits(from: u32, digits: Digits, byte: u8) -> Result<Held, LexError>
    requires { table.is_digit (table.class byte) ≡ true }
    ensures { (tokens : List Token) → Steps (spec.more_digits (nat_lt digits.0 MAX_DIGITS) from digits byte) tokens result tokens }
{
    if digits.has_room() {
        Ok(Held::Number(from, digits.with(byte)))
    } else {
        Err(LexError::Grammar { line: from })
    }
}

fn word(
    alloc: Global,
    tokens: &mut List<Token>,
    from: u32,
    word: Text,
    class: Class,
    byte: u8,
    line: u32,
) -> Result<Held, LexError>
    requires { class ≡ table.class byte }
    ensures { Steps (spec.word (table.in_word class) from word class byte line) tokens.old result tokens.new }
{
    if in_word(class) {
        Ok(Held::Word(from, with(word, byte)?))
    } else {
        ended(
            alloc,
            tokens,
            TokenKind::Word(word),
            from,
            class,
            byte,
            line,
        )
    }
}

fn number(
    alloc: Global,
    tokens: &mut List<Token>,
    from: u32,
    digits: Digits,
    class: Class,
    byte: u8,
    line: u32,
) -> Result<Held, LexError>
    requires { class ≡ table.class byte }
    ensures { Steps (spec.number (table.is_digit class) from digits class byte line) tokens.old result tokens.new }
{
    if is_digit(class) {
        more_digits(from, digits, byte)
    } else {
        let kind = TokenKind::Number(digits.number());
        ended(alloc, tokens, kind, from, class, byte, line)
    }
}

fn quote(
    tokens: &mut List<Token>,
    class: Class,
    from: u32,
    text: Text,
    byte: u8,
) -> Result<Held, LexError>
    ensures { Steps (spec.quote class from text byte) tokens.old result tokens.new }
{
    match class {
        Class::Quote => {
            push(tokens, TokenKind::Text(text), from)?;
            Ok(Held::Nothing)
        }
        Class::Backslash => Ok(Held::Backslash(from, text)),
        _ => Ok(Held::Quote(from, with(text, byte)?)),
    }
}

fn backslash(class: Class, from: u32, text: Text, byte: u8) -> Result<Held, LexError>
    ensures { (tokens : List Token) → Steps (spec.backslash class from text byte) tokens result tokens }
{
    match class {
        Class::Quote => Ok(Held::Quote(from, with(text, b'"')?)),
        Class::Backslash => Ok(Held::Backslash(from, with(text, b'\\')?)),
        _ => {
            let mut text = text;
            text.push(b'\\')?;
            text.push(byte)?;
            Ok(Held::Quote(from, text))
        }
    }
}

fn sign(
    alloc: Global,
    tokens: &mut List<Token>,
    first: Class,
    from: u32,
    class: Class,
    byte: u8,
    line: u32,
) -> Result<Held, LexError>
    requires { class ≡ table.class byte }
    ensures { Steps (spec.sign (table.double first class) (table.alone first) from class byte line) tokens.old result tokens.new }
{
    if let Some(sign) = double(first, class) {
        push(tokens, TokenKind::Sign(sign), from)?;
        return Ok(Held::Nothing);
    }
    match alone(first) {
        Some(sign) => ended(
            alloc,
            tokens,
            TokenKind::Sign(sign),
            from,
            class,
            byte,
            line,
        ),
        None => Err(LexError::Grammar { line: from }),
    }
}

/// What is held behind one more byte, with the tokens that it ended.
pub fn step(
    alloc: Global,
    tokens: &mut List<Token>,
    held: Held,
    byte: u8,
    line: u32,
) -> Result<Held, LexError>
    ensures { Steps (spec.step held (table.class byte) byte line) tokens.old result tokens.new }
{
    let class = class_of(byte);
    match held {
        Held::Nothing => begin(alloc, class, byte, line),
        Held::Comment => Ok(comment(class)),
        Held::Word(from, written) => word(alloc, tokens, from, written, class, byte, line),
        Held::Number(from, digits) => number(alloc, tokens, from, digits, class, byte, line),
        Held::Quote(from, text) => quote(tokens, class, from, text, byte),
        Held::Backslash(from, text) => backslash(class, from, text, byte),
        Held::Sign(from, first) => sign(alloc, tokens, first, from, class, byte, line),
    }
}

/// The tokens where the text ends.
pub fn finish(mut tokens: List<Token>, held: Held) -> Result<List<Token>, LexError>
    ensures { Gives result (spec.behind tokens (spec.finish held)) }
{
    match held {
        Held::Nothing | Held::Comment => Ok(tokens),
        Held::Word(from, word) => {
            push(&mut tokens, TokenKind::Word(word), from)?;
            Ok(tokens)
        }
        Held::Number(from, digits) => {
            push(&mut tokens, TokenKind::Number(digits.number()), from)?;
            Ok(tokens)
        }
        Held::Quote(from, _) | Held::Backslash(from, _) => Err(LexError::Grammar { line: from }),
        Held::Sign(from, first) => match alone(first) {
            Some(sign) => {
                push(&mut tokens, TokenKind::Sign(sign), from)?;
                Ok(tokens)
            }
            None => Err(LexError::Grammar { line: from }),
        },
    }
}
