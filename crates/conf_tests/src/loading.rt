//! Configurations that are loaded, and the first fault of those that are refused.
ghost use Rattle.settings.specs.InForm.{IsInForm};

use conditions::RegexMaker;
use conf_eval::{LoadError, MAX_TEXTS, laws, load};
use conf_value::Config;
use lt_bytes::{NoMemory, Text, decimal};
use lt_world::MemTexts;
use settings::global_settings;
use std::alloc::Global;
use std::test::Fail;

/// The document root, which each configuration must have.
const ROOT: &[u8] = b"server.document-root=\"/\"\n";

/// The first line of most roots: half of a sum that passes 64 bits, and an array that is nested as deep as may be.
const FIRST: &[u8] = b"n=999999999999999999 half=n+n+n+n+n deep=@1&\n";

/// Statements that are wrong, each behind the number of its fault.
const STATEMENTS: &[u8] = b"\
3|$HTTP[\"x\"]==\"x\"{x=no}~4|n=1~5|x=no~6|x=1+\"a\"~7|x=half+half~8|server.tag=1~\
9|$HTTP[\"remote-ip\"]==\"10.0.0.0/33\"{x=no}~10|url.rewrite=(\"(\"=>\"a\")~\
11|include \"no\"~12|include \"b\"~17|x=(deep)";

/// Lines that no text has, in the same way.
const LINES: &[u8] = b"1|\xff~2|!~2|)~17|x=(@";

/// Two faults of one setting: what is answered, and the lines from the second on.
const SETTINGS: &[u8] = b"\
4 0 3|x=1\nx=no~4 0 3|x=1\nx=1+\"a\"~4 0 3|x=1\nx=half+half~4 0 3|x=1\nx=(deep)~\
4 0 3|server.tag=\"a\"\nserver.tag=1~4 0 3|server.port=1\nserver.port=0~\
4 0 3|url.rewrite=(\"a\"=>\"b\")\nurl.rewrite-once=(\"c\"=>\"d\")~\
5 0 2|x=no+1+\"a\"~6 0 2|x=1+\"a\"+no~5 0 2|x=no+half+half~7 0 2|x=half+half+no~\
5 0 2|x=(no,deep)~17 0 2|x=(deep,no)~6 0 2|x=(1+\"a\",half+half)~7 0 2|x=(half+half,1+\"a\")~\
17 0 2|x=1+(deep)~6 0 2|x=(1+\"a\",deep)~7 0 2|x=(half+half,deep)~17 0 2|x=(deep,half+half)";

/// The same of what is joined or checked once the value is known.
const CHECKED: &[u8] = b"\
5 0 3|x=1\nx+=\"a\"+no~6 0 3|x=1\nx+=\"a\"~7 0 3|x=half\nx+=half~6 0 3|server.port=1\nserver.port+=\"a\"~\
7 0 3|server.max-keep-alive-requests=half\nserver.max-keep-alive-requests+=half~\
5 0 2|server.tag=1+no~5 0 2|server.port=0+no~6 0 2|server.tag=1+\"a\"~6 0 2|server.port=0+\"a\"~\
7 0 2|server.tag=half+half~7 0 2|server.port=half+half~17 0 2|server.tag=(deep)~\
17 0 2|index-file.names=(\"/\",deep)~8 0 2|index-file.names=(\"/\",1)~9 0 2|server.port=65536~\
9 0 2|server.tag=\"^x\"~9 0 2|mimetype.assign=(\"^x\"=>\"a\")~9 0 2|mimetype.assign=(\"a\"=>\"^x\")~\
16 0 1|server.tag=\"^\" mimetype.assign=(\"^\"=>\"^\") x=\"^x\"";

/// The same of includes, of texts and of the end.
const OTHERS: &[u8] = b"\
5 0 2|include 1+no~6 0 2|include 1+\"b\"~7 0 2|include half+half~17 0 2|include(deep)~8 0 2|include 1~\
5 0 2|include\"no\"+no~1 0 3|!\n\xff~1 0 3|)\n\xff~1 0 3|x=(@\n\xff~2 0 3|)\n!~2 0 3|x=(@\n!~\
2 0 2|)\nx=(@~17 0 2|x=(@\n)~1 1 2|include\"b\"|!\n\xff~17 1 1|include\"b\"|x=(@~2 1 2|include\"b\"|x=1\n)~\
16 0 1|~16 0 1|include\"b\"|x=1";

/// What is loaded: the tag, the port, the bytes of a body, the requests of a connection, and the warnings.
const LOADED: &[u8] = b"\
ab-abc 80 1048576 100|*x=\"a\" include\"b\" x+=\"c\" server.tag+=x|x+=\"b\" server.tag=x+\"-\"~\
lighttpd 1 4194304 1|*server.port=1 server.max-request-size=0 server.max-keep-alive-requests=0~\
lighttpd 4096 4194304 4096|*server.port=4096 server.max-request-size=4096 server.max-keep-alive-requests=4096~\
lighttpd 4097 4194304 4097|*server.port=4097 server.max-request-size=4097 server.max-keep-alive-requests=4097~\
lighttpd 80 1048576 100, foo.bar 1 1, fastcgi.balance 0 4|*include\"b\"\nfastcgi.balance=\"fair\"|foo.bar=1";

// Adds one byte so many times.
fn fill(text: &mut Text, byte: u8, count: u64) -> Result<(), NoMemory> {
    for _ in 0..count {
        text.push(byte)?;
    }
    Ok(())
}

// Adds a text in which four bytes stand for more: 64 parentheses, 4,096 letters, the document root.
fn spell(text: &mut Text, bytes: &[u8]) -> Result<(), NoMemory> {
    for byte in bytes {
        match *byte {
            b'@' => fill(text, b'(', 64)?,
            b'&' => fill(text, b')', 64)?,
            b'^' => fill(text, b'x', 4096)?,
            b'*' => text.push_all(ROOT)?,
            other => text.push(other)?,
        }
    }
    Ok(())
}

// Adds a place in a file.
fn show(out: &mut Text, what: &[u8], file: u32, line: u32) -> Result<(), NoMemory> {
    out.push_all(what)?;
    out.push(b' ')?;
    out.push_all(decimal(u64::from(file)).bytes())?;
    out.push(b' ')?;
    out.push_all(decimal(u64::from(line)).bytes())
}

// Adds a number behind a space.
fn show_number(out: &mut Text, number: u64) -> Result<(), NoMemory> {
    out.push(b' ')?;
    out.push_all(decimal(number).bytes())
}

// Adds what is set.
fn show_settings(out: &mut Text, config: &Config) -> Result<(), NoMemory>
    requires form { IsInForm config.now }
{
    let settings = global_settings(config);
    out.push_all(settings.server_tag)?;
    show_number(out, settings.server_port)?;
    show_number(out, settings.server_max_request_size)?;
    show_number(out, settings.server_max_keep_alive_requests)
}

// What comes of loading the text `a`: what is set and the warnings, or the number of the fault and its place.
fn outcome(alloc: Global, texts: &mut MemTexts) -> Result<Text, NoMemory> {
    let mut out = Text::new(alloc);
    match load(alloc, b"a", texts, &mut RegexMaker::new(alloc)) {
        Ok(loaded) => {
            show_settings(&mut out, &loaded.config)?;
            for warning in loaded.config.warnings.as_slice() {
                out.push_all(b", ")?;
                show(&mut out, warning.key.bytes(), warning.file, warning.line)?;
            }
        }
        Err(LoadError::Conf(fault)) => {
            let kind = decimal(fault.kind as u64);
            show(&mut out, kind.bytes(), fault.file, fault.line)?;
        }
        Err(LoadError::RootMissing) => out.push_all(b"missing")?,
        Err(LoadError::RootFailed) => out.push_all(b"failed")?,
        Err(LoadError::NoMemory) => return Err(NoMemory),
    }
    Ok(out)
}

// The texts `a`, with two lines behind the first, and `b`.
fn texts_of(alloc: Global, line: &[u8], next: &[u8], other: &[u8]) -> Result<MemTexts, NoMemory> {
    let mut root = Text::new(alloc);
    spell(&mut root, FIRST)?;
    spell(&mut root, line)?;
    root.push(b'\n')?;
    spell(&mut root, next)?;
    let mut included = Text::new(alloc);
    spell(&mut included, other)?;
    let mut texts = MemTexts::new(alloc);
    texts.add(b"a", root.bytes())?;
    texts.add(b"b", included.bytes())?;
    Ok(texts)
}

// Whether a row's texts come to what it says.
fn is_so(alloc: Global, row: &[u8]) -> Result<bool, NoMemory> {
    let mut parts = row.split(|byte| *byte == b'|');
    let wanted = parts.next().unwrap_or(b"");
    let root = parts.next().unwrap_or(b"");
    let mut texts = texts_of(alloc, root, b"", parts.next().unwrap_or(b""))?;
    Ok(outcome(alloc, &mut texts)?.bytes() == wanted)
}

#[test]
fn of_two_faults_the_first_in_their_order_is_named(rt: HostRuntime) -> Result<(), Fail> {
    laws::a_missing_text_was_asked_for();
    laws::a_load_has_one_outcome();
    for table in [SETTINGS, CHECKED, OTHERS, LOADED] {
        for row in table.split(|byte| *byte == b'~') {
            assert!(rt; is_so(rt.alloc(), row)?, "{row:?}");
        }
    }
    Ok(())
}

// Whether these texts, whose call of this number fails, come to this fault in this place.
fn is_at(
    alloc: Global,
    mut texts: MemTexts,
    fails: u32,
    kind: &[u8],
    place: &[u8],
) -> Result<bool, NoMemory> {
    texts.plan(fails)?;
    let mut wanted = Text::new(alloc);
    wanted.push_all(kind)?;
    wanted.push_all(place)?;
    Ok(outcome(alloc, &mut texts)?.bytes() == wanted.bytes())
}

// The fault's number and the line of a row.
fn halves(row: &[u8]) -> (&[u8], &[u8]) {
    let mut parts = row.split(|byte| *byte == b'|');
    (parts.next().unwrap_or(b""), parts.next().unwrap_or(b""))
}

// Whether a wrong statement is named before the wrong statements behind it, and a wrong line before all statements.
fn is_named(alloc: Global, row: &[u8]) -> Result<bool, NoMemory> {
    let (kind, first) = halves(row);
    for other in STATEMENTS.split(|byte| *byte == b'~') {
        let (_, second) = halves(other);
        let alone = texts_of(alloc, first, second, b"")?;
        let behind = texts_of(alloc, b"include \"b\"", second, first)?;
        if !is_at(alloc, alone, 1, kind, b" 0 2")? || !is_at(alloc, behind, 2, kind, b" 1 1")? {
            return Ok(false);
        }
    }
    for other in LINES.split(|byte| *byte == b'~') {
        let (kind, second) = halves(other);
        let texts = texts_of(alloc, first, second, b"")?;
        if !is_at(alloc, texts, 1, kind, b" 0 3")? {
            return Ok(false);
        }
    }
    Ok(true)
}

#[test]
fn of_two_statements_the_first_is_named(rt: HostRuntime) -> Result<(), Fail> {
    for row in STATEMENTS.split(|byte| *byte == b'~') {
        assert!(rt; is_named(rt.alloc(), row)?, "{row:?}");
    }
    Ok(())
}

// An include of the text with this number.
fn include_of(alloc: Global, number: u64) -> Result<Text, NoMemory> {
    let mut text = Text::new(alloc);
    text.push_all(b"include \"")?;
    text.push_all(decimal(number).bytes())?;
    text.push_all(b"\"\n")?;
    Ok(text)
}

// The text `a`, so many includes inside one another, and the last of their texts.
fn chain(alloc: Global, includes: u64, last: &[u8]) -> Result<MemTexts, NoMemory> {
    let mut texts = MemTexts::new(alloc);
    texts.add(b"a", include_of(alloc, 1)?.bytes())?;
    for number in 1..includes {
        let next = include_of(alloc, number.saturating_add(1))?;
        texts.add(decimal(number).bytes(), next.bytes())?;
    }
    texts.add(decimal(includes).bytes(), last)?;
    Ok(texts)
}

// Whether such a chain, whose call of this number fails, comes to this.
fn ends(
    alloc: Global,
    includes: u64,
    last: &[u8],
    fails: u32,
    wanted: &[u8],
) -> Result<bool, NoMemory> {
    is_at(alloc, chain(alloc, includes, last)?, fails, wanted, b"")
}

/// What is loaded where the document root alone is set.
const DEFAULTS: &[u8] = b"lighttpd 80 1048576 100";

#[test]
fn sixteen_includes_nest_and_no_more(rt: HostRuntime) -> Result<(), Fail> {
    let alloc = rt.alloc();
    assert!(rt; ends(alloc, 16, ROOT, 99, DEFAULTS)?);
    assert!(rt; ends(alloc, 17, ROOT, 99, b"13 16 1")?);
    // Of the seventeenth include the value is looked at before, and its text is not asked for.
    assert!(rt; ends(alloc, 16, b"include no", 99, b"5 16 1")?);
    assert!(rt; ends(alloc, 16, b"include 1", 99, b"8 16 1")?);
    assert!(rt; ends(alloc, 16, b"include \"no\"\nx=no", 99, b"13 16 1")?);
    assert!(rt; ends(alloc, 17, ROOT, 17, b"13 16 1")?);
    // A text includes itself.
    assert!(rt; ends(alloc, 1, b"include \"1\"", 99, b"13 16 1")?);
    // A text that can't be read is not looked into.
    assert!(rt; ends(alloc, 1, b"\xff", 1, b"12 0 1")?);
    assert!(rt; ends(alloc, 1, b"\xff", 0, b"failed")?);
    assert!(rt; is_at(alloc, MemTexts::new(alloc), 0, b"missing", b"")?);
    Ok(())
}

// The text `a`, which includes `1`, with so many bytes in both; those of `1` behind its front are all the same.
fn filled(alloc: Global, front: &[u8], total: u64, byte: u8) -> Result<MemTexts, NoMemory> {
    let mut texts = MemTexts::new(alloc);
    let mut root = include_of(alloc, 1)?;
    root.push_all(ROOT)?;
    let mut text = Text::new(alloc);
    text.push_all(front)?;
    let there = (root.bytes().len() as u64).saturating_add(front.len() as u64);
    fill(&mut text, byte, total.saturating_sub(there))?;
    texts.add(b"a", root.bytes())?;
    texts.add(b"1", text.bytes())?;
    Ok(texts)
}

#[test]
fn a_mebibyte_is_loaded_and_no_byte_more(rt: HostRuntime) -> Result<(), Fail> {
    let alloc = rt.alloc();
    let most = filled(alloc, b"#", MAX_TEXTS, b'x')?;
    assert!(rt; is_at(alloc, most, 9, DEFAULTS, b"")?);
    let over = MAX_TEXTS + 1;
    assert!(rt; is_at(alloc, filled(alloc, b"#", over, b'x')?, 9, b"14", b" 0 1")?);
    // A text that is too long is not looked into, whether it could be read or not.
    assert!(rt; is_at(alloc, filled(alloc, b"", over, b'\xff')?, 1, b"14", b" 0 1")?);
    let mut texts = MemTexts::new(alloc);
    let mut root = Text::new(alloc);
    fill(&mut root, b'\xff', over)?;
    texts.add(b"a", root.bytes())?;
    assert!(rt; is_at(alloc, texts, 0, b"14", b" 0 1")?);
    Ok(())
}
