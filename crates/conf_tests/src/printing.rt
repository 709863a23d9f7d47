//! Texts and their printed form.
use conf_lex::{LexError, lex};
use conf_parse::{ParseError, laws, parse, print};
use lt_bytes::{NoMemory, Text, decimal};
use std::alloc::Global;
use std::test::Fail;

/// Texts, a `|` between them, each followed by its printed form.
const PRINTED: &[u8] = b"\
server.modules=(\"a\",\"b\",) $HTTP[\"url\"]=~\"\\.php$\"{var.x=1}else{}|\
server.modules = ( \"a\", \"b\" )
$HTTP[\"url\"] =~ \"\\.php$\" {
  var.x = 1
}
else {
}
|# nothing
||x = y + var.z + 007 + enable + \"a\\\"b\"|\
var.x = var.y + var.z + 7 + \"enable\" + \"a\\\"b\"
|a.b += ( ( ), ( \"k\" => 1 + 2, c ), \"d\" => disable )include x + \".conf\"|\
a.b += ( ( ), ( \"k\" => 1 + 2, var.c ), \"d\" => \"disable\" )
include var.x + \".conf\"
|$else[\"\"]==\"\"{}else$A[\"b\"]!=\"c\"{}$A[\"b\"]!~\"c
\"{}$A[\"b\"]=^\"c\"{$A[\"b\"]=$\"c\"{x=1}else{y=2}}|\
$else[\"\"] == \"\" {
}
else $A[\"b\"] != \"c\" {
}
$A[\"b\"] !~ \"c
\" {
}
$A[\"b\"] =^ \"c\" {
  $A[\"b\"] =$ \"c\" {
    var.x = 1
  }
  else {
    var.y = 2
  }
}
";

/// Why a text is refused, and at which line.
#[derive(Debug, PartialEq, Eq, Clone, Copy)]
enum Refusal {
    NotUtf8(u32),
    Grammar(u32),
    Deep(u32),
    NoMemory,
}

// The printed form of a text.
fn printed(alloc: Global, text: &[u8]) -> Result<Text, Refusal> {
    let tokens = match lex(alloc, text) {
        Ok(tokens) => tokens,
        Err(LexError::NotUtf8 { line }) => return Err(Refusal::NotUtf8(line)),
        Err(LexError::Grammar { line }) => return Err(Refusal::Grammar(line)),
        Err(LexError::NoMemory) => return Err(Refusal::NoMemory),
    };
    let tree = match parse(alloc, &tokens) {
        Ok(tree) => tree,
        Err(ParseError::Grammar { line }) => return Err(Refusal::Grammar(line)),
        Err(ParseError::Deep { line }) => return Err(Refusal::Deep(line)),
        Err(ParseError::NoMemory) => return Err(Refusal::NoMemory),
    };
    print(alloc, &tree).map_err(|_| Refusal::NoMemory)
}

// Whether the printed form of a text is this.
fn prints(alloc: Global, text: &[u8], form: &[u8]) -> bool {
    match printed(alloc, text) {
        Ok(found) => found.bytes() == form,
        Err(_) => false,
    }
}

#[test]
fn a_printed_text_is_printed_again_as_it_stands(rt: HostRuntime) {
    let alloc = rt.alloc();
    let mut parts = PRINTED.split(|byte| *byte == b'|');
    for row in 0..5 {
        let text = parts.next().unwrap_or(b"");
        let form = parts.next().unwrap_or(b"?");
        assert!(rt; prints(alloc, text, form), "{row}");
        assert!(rt; prints(alloc, form, form), "{row}");
    }
    assert_eq!(rt; parts.next(), None);
}

// Whether a text is refused so.
fn refuses(alloc: Global, text: &[u8], refusal: Refusal) -> bool {
    printed(alloc, text).err() == Some(refusal)
}

#[test]
fn a_refusal_names_its_line(rt: HostRuntime) {
    let alloc = rt.alloc();
    assert!(rt; refuses(alloc, b"# c\n\xff", Refusal::NotUtf8(2)));
    let first = b"\
x = \"a\nb~x = server.port~a..b = 1~include_shell \"x\"~else = 1~}~x = (1 =>\n2)~$HTTP[\"a\"] == b {}";
    for text in first.split(|byte| *byte == b'~') {
        assert!(rt; refuses(alloc, text, Refusal::Grammar(1)), "{text:?}");
    }
    let second = b"\
x\n=\n~\na.b. = 1~x = 1\nenable = 1~x = (\n,)~x = (1\n\"b\")~x = (\"b\"\n=> )~\
$HTTP[\"a\"]\n= \"b\" {}~$HTTP[\"a\"] == \"b\" {\nx = 1~$A[\"a\"] == \"b\" {} else {}\nelse {}~\
$A[\"a\"] == \"b\" {} x = 1\nelse {}~$A[\"a\"] == \"b\" {}\nelse x = 1";
    for text in second.split(|byte| *byte == b'~') {
        assert!(rt; refuses(alloc, text, Refusal::Grammar(2)), "{text:?}");
    }
    assert!(rt; refuses(alloc, b"x\n=\n1 +", Refusal::Grammar(3)));
    assert!(rt; refuses(alloc, b"x = 1\n\n+ )", Refusal::Grammar(3)));
    assert!(rt; refuses(alloc, b"\n\nserver.port\n80", Refusal::Grammar(4)));
}

// So many blocks in one another, and in them a setting of so many arrays in one another.
fn nested(alloc: Global, blocks: usize, arrays: usize) -> Result<Text, NoMemory> {
    let mut text = Text::new(alloc);
    for _ in 0..blocks {
        text.push_all(b"$A[\"b\"]==\"c\"{\n")?;
    }
    text.push_all(b"x=")?;
    for _ in 0..arrays {
        text.push(b'(')?;
    }
    text.push(b'1')?;
    for _ in 0..arrays {
        text.push(b')')?;
    }
    for _ in 0..blocks {
        text.push(b'}')?;
    }
    Ok(text)
}

// Why such a nest is refused.
fn refusal_of(alloc: Global, blocks: usize, arrays: usize) -> Result<Option<Refusal>, NoMemory> {
    let text = nested(alloc, blocks, arrays)?;
    Ok(printed(alloc, text.bytes()).err())
}

#[test]
fn sixty_four_levels_nest_and_no_more(rt: HostRuntime) -> Result<(), Fail> {
    let alloc = rt.alloc();
    assert_eq!(rt; refusal_of(alloc, 0, 64)?, None);
    assert_eq!(rt; refusal_of(alloc, 64, 0)?, None);
    assert_eq!(rt; refusal_of(alloc, 32, 32)?, None);
    assert_eq!(rt; refusal_of(alloc, 0, 65)?, Some(Refusal::Deep(1)));
    assert_eq!(rt; refusal_of(alloc, 65, 0)?, Some(Refusal::Deep(65)));
    assert_eq!(rt; refusal_of(alloc, 32, 33)?, Some(Refusal::Deep(33)));
    assert_eq!(rt; refusal_of(alloc, 64, 1)?, Some(Refusal::Deep(65)));
    assert_eq!(rt; refusal_of(alloc, 0, 1 << 20)?, Some(Refusal::Deep(1)));
    // A wrong token counts where it stands before the level that is too deep.
    let mut text = Text::new(alloc);
    text.push_all(b"x = 1 )\n")?;
    text.push_all(nested(alloc, 0, 65)?.bytes())?;
    assert!(rt; refuses(alloc, text.bytes(), Refusal::Grammar(1)));
    Ok(())
}

/// A virtual host of nine lines; its number stands for each `@`.
const HOST: &[u8] = b"\
$HTTP[\"host\"] == \"www@.example.org\" { # host
  name = \"www@\"
  server.document-root = \"/srv/\" + name
  $HTTP[\"url\"] =~ \"\\.php$\" {
    fastcgi.server += ( \"/\" => ( ( \"host\" => \"127.0.0.1\", \"port\" => 9000 + @, \"check-local\" => disable ) ) )
  } else { index-file.names = (\"index.html\",) }
}
else $SERVER[\"socket\"]==\":8080\" {
  server.max-request-size=0 }
";

// A configuration of so many virtual hosts.
fn virtual_hosts(alloc: Global, hosts: u64) -> Result<Text, NoMemory> {
    let mut text = Text::new(alloc);
    text.push_all(b"# made for a test\nserver.document-root = \"/srv\"\n")?;
    text.push_all(
        b"mimetype.assign = ( \".html\" => \"text/html\",\n  \".txt\" => \"text/plain\", )\n",
    )?;
    for host in 0..hosts {
        for byte in HOST {
            if *byte == b'@' {
                text.push_all(decimal(host).bytes())?;
            } else {
                text.push(*byte)?;
            }
        }
    }
    Ok(text)
}

#[test]
fn a_configuration_of_many_hosts_is_printed_and_printed_again(rt: HostRuntime) -> Result<(), Fail> {
    let text = virtual_hosts(rt.alloc(), 60)?;
    let once = printed(rt.alloc(), text.bytes());
    let form = once.as_ref().map_or(b"".as_slice(), |form| form.bytes());
    assert_eq!(rt;
        form.iter().filter(|byte| **byte == b'\n').count(),
        2 + 60 * 13
    );
    assert!(rt; prints(rt.alloc(), form, form));
    Ok(())
}

#[test]
fn the_laws_are_functions_that_do_nothing() {
    laws::one_tree();
    laws::printed_is_reread();
}
