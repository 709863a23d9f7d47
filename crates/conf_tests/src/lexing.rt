//! Texts and their tokens.
use conf_lex::{LexError, Token, TokenKind, laws, lex, signs};
use lt_bytes::{List, NoMemory, Text, decimal};
use std::alloc::Global;
use std::test::Fail;

/// Texts, a `~` between them: the text, a `|`, and its tokens as `shown` writes them.
const READ: &[u8] = b"\
|~ \t\r\n# no token\n#|~\
server.port = 80 # \"\xc3\xa9\"\nvar.x+=\"a\"|1w<server.port>1s<0>1n<80>2w<var.x>2s<1>2t<a>~\
= += => + , ( ) { } [ ] $ == !=|1s<0>1s<1>1s<2>1s<3>1s<4>1s<5>1s<6>1s<7>1s<8>1s<9>1s<10>1s<11>1s<12>1s<13>~\
===>=$+==a|1s<12>1s<2>1s<17>1s<1>1s<0>1w<a>~\
12abc 000000000000000007 999999999999999999|1n<12>1w<abc>1n<7>1n<999999999999999999>~\
a_b-c.d9.|1w<a_b-c.d9.>~\
\"a\nb\" \"\\\"\\.\\\\n#\"\r\n\"\"x|1t<a\nb>2t<\"\\.\\\\n#>3t<>3w<x>";

// Adds a token: the line, a letter for the kind, and the value in angle brackets.
fn show(out: &mut Text, line: u32, kind: &[u8], value: &[u8]) -> Result<(), NoMemory> {
    out.push_all(decimal(u64::from(line)).bytes())?;
    out.push_all(kind)?;
    out.push(b'<')?;
    out.push_all(value)?;
    out.push(b'>')
}

// Each token, one after another.
fn shown(alloc: Global, tokens: &List<Token>) -> Result<Text, NoMemory> {
    let mut out = Text::new(alloc);
    for token in tokens.as_slice() {
        match &token.kind {
            TokenKind::Word(word) => show(&mut out, token.line, b"w", word.bytes())?,
            TokenKind::Text(text) => show(&mut out, token.line, b"t", text.bytes())?,
            TokenKind::Number(number) => {
                show(
                    &mut out,
                    token.line,
                    b"n",
                    decimal(number.unsigned_abs()).bytes(),
                )?;
            }
            TokenKind::Sign(sign) => {
                show(
                    &mut out,
                    token.line,
                    b"s",
                    decimal(u64::from(*sign)).bytes(),
                )?;
            }
        }
    }
    Ok(out)
}

#[test]
fn a_text_has_its_tokens(rt: HostRuntime) -> Result<(), Fail> {
    for row in READ.split(|byte| *byte == b'~') {
        let mut parts = row.split(|byte| *byte == b'|');
        let found = shown(rt.alloc(), &lex(rt.alloc(), parts.next().unwrap_or(b""))?)?;
        assert_eq!(rt; Some(found.bytes()), parts.next(), "{row:?}");
    }
    let tests = lex(rt.alloc(), b"=~ !~ =^ =$")?;
    assert_eq!(rt;
        shown(rt.alloc(), &tests)?.bytes(),
        b"1s<14>1s<15>1s<16>1s<17>".as_slice()
    );
    Ok(())
}

// Why a text has no tokens.
fn refusal(alloc: Global, text: &[u8]) -> Option<LexError> {
    lex(alloc, text).err()
}

// A token that is none begins on this line.
fn wrong(line: u32) -> Option<LexError> {
    Some(LexError::Grammar { line })
}

// The first byte that is not UTF-8 stands on this line.
fn coded(line: u32) -> Option<LexError> {
    Some(LexError::NotUtf8 { line })
}

#[test]
fn a_refusal_names_its_line(rt: HostRuntime) {
    let alloc = rt.alloc();
    assert_eq!(rt; refusal(alloc, b"var.x = \"a\nb"), wrong(1));
    assert_eq!(rt; refusal(alloc, b"# c\n\xff"), coded(2));
    assert_eq!(rt; refusal(alloc, b"!\n\xc3("), coded(2));
    assert_eq!(rt; refusal(alloc, b"\n\n\xe2\x82"), coded(3));
    assert_eq!(rt; refusal(alloc, b"a\n\n;"), wrong(3));
    assert_eq!(rt; refusal(alloc, b"\"a\nb\"\n!x"), wrong(3));
    assert_eq!(rt; refusal(alloc, b"a\n\"\\\""), wrong(2));
    assert_eq!(rt; refusal(alloc, b"\n1234567890123456789 &"), wrong(2));
    assert_eq!(rt; refusal(alloc, b"\n_a"), wrong(2));
    assert_eq!(rt; refusal(alloc, b"a > b"), wrong(1));
    assert_eq!(rt; refusal(alloc, b"a\n!"), wrong(2));
    assert_eq!(rt; refusal(alloc, b"\xc3\xa9"), wrong(1));
}

#[test]
fn each_sign_has_its_number(rt: HostRuntime) {
    laws::tokens_stand_on_their_lines();
    assert_eq!(rt; (signs::ASSIGN, signs::APPEND, signs::ARROW), (0, 1, 2));
    assert_eq!(rt; (signs::PLUS, signs::COMMA), (3, 4));
    assert_eq!(rt; (signs::OPEN_ARRAY, signs::CLOSE_ARRAY), (5, 6));
    assert_eq!(rt; (signs::OPEN_BLOCK, signs::CLOSE_BLOCK), (7, 8));
    assert_eq!(rt; (signs::OPEN_NAME, signs::CLOSE_NAME), (9, 10));
    assert_eq!(rt;
        (signs::DOLLAR, signs::EQUAL, signs::NOT_EQUAL),
        (11, 12, 13)
    );
    assert_eq!(rt; (signs::MATCH, signs::NO_MATCH), (14, 15));
    assert_eq!(rt; (signs::PREFIX, signs::SUFFIX), (16, 17));
}
