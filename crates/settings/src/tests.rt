//! Keys and values by a table, and which block counts.
use crate::{
    Gateways, KeyCheck, Rules, Settings, check_value, global_settings, has_few_lists, index_of,
    used_by,
};
use conf_value::{Block, Config, Pair, Setting, Truth, Value};
use gate_hosts::Policy;
use lt_bytes::{List, NoMemory, Number, Text, decimal, read_decimal};
use std::alloc::Global;
use std::process::Abort;

// A value as a word: `"TEXT`, a number, an array `(KEY=TEXT,TEXT`, or gateways `[KEY>HOST;HOST,KEY!HOST`.
fn value(alloc: Global, word: &[u8]) -> Result<Value, NoMemory> {
    match word.split_first() {
        Some((b'"', text)) => Ok(Value::Text(Text::from_bytes(alloc, text)?)),
        Some((b'(', items)) => Ok(Value::Array(pairs(alloc, items)?)),
        Some((b'[', entries)) => Ok(Value::Array(gateways(alloc, entries)?)),
        _ => Ok(Value::Number(number(word))),
    }
}

fn number(word: &[u8]) -> i64 {
    match read_decimal(word) {
        Number::Value(number) => (number % 1_000_000) as i64,
        Number::NotANumber | Number::Overflow => -1,
    }
}

fn pairs(alloc: Global, items: &[u8]) -> Result<List<Pair>, NoMemory> {
    let mut pairs = List::new(alloc);
    if items.is_empty() {
        return Ok(pairs);
    }
    for item in items.split(|byte| *byte == b',') {
        let mut parts = item.split(|byte| *byte == b'=');
        let first = Text::from_bytes(alloc, parts.next().unwrap_or(b""))?;
        let pair = match parts.next() {
            Some(text) => Pair {
                key: Some(first),
                value: Value::Text(Text::from_bytes(alloc, text)?),
            },
            None => Pair {
                key: None,
                value: Value::Text(first),
            },
        };
        pairs.push(pair)?;
    }
    Ok(pairs)
}

fn gateways(alloc: Global, entries: &[u8]) -> Result<List<Pair>, NoMemory> {
    let mut pairs = List::new(alloc);
    for entry in entries.split(|byte| *byte == b',') {
        pairs.push(entry_of(alloc, entry)?)?;
    }
    Ok(pairs)
}

fn entry_of(alloc: Global, entry: &[u8]) -> Result<Pair, NoMemory> {
    let mut parts = entry.splitn(2, |byte| *byte == b'>');
    let key = parts.next().unwrap_or(b"");
    let hosts = list_of(alloc, parts.next().unwrap_or(b""))?;
    pair_of(alloc, key, Value::Array(hosts))
}

// A pair with this key, or without one where it is empty.
fn pair_of(alloc: Global, key: &[u8], value: Value) -> Result<Pair, NoMemory> {
    if key.is_empty() {
        return Ok(Pair { key: None, value });
    }
    let key = Some(Text::from_bytes(alloc, key)?);
    Ok(Pair { key, value })
}

fn list_of(alloc: Global, hosts: &[u8]) -> Result<List<Pair>, NoMemory> {
    match hosts.split_first() {
        Some((b'!', host)) => host_of(alloc, host),
        _ => hosts_of(alloc, hosts),
    }
}

fn hosts_of(alloc: Global, hosts: &[u8]) -> Result<List<Pair>, NoMemory> {
    let mut pairs = List::new(alloc);
    for host in hosts.split(|byte| *byte == b';') {
        let value = Value::Array(host_of(alloc, host)?);
        pairs.push(Pair { key: None, value })?;
    }
    Ok(pairs)
}

fn host_of(alloc: Global, host: &[u8]) -> Result<List<Pair>, NoMemory> {
    let mut pairs = List::new(alloc);
    for pair in host.split(|byte| *byte == b'&') {
        let mut parts = pair.splitn(2, |byte| *byte == b':');
        let key = parts.next().unwrap_or(b"");
        let value = word_of(alloc, parts.next().unwrap_or(b""))?;
        pairs.push(pair_of(alloc, key, value)?)?;
    }
    Ok(pairs)
}

// A text, or a number behind `#`.
fn word_of(alloc: Global, word: &[u8]) -> Result<Value, NoMemory> {
    match word.split_first() {
        Some((b'#', digits)) => Ok(Value::Number(number(digits))),
        _ => Ok(Value::Text(Text::from_bytes(alloc, word)?)),
    }
}

fn checked(alloc: Global, key: &[u8], word: &[u8]) -> Result<KeyCheck, NoMemory> {
    Ok(check_value(key, &value(alloc, word)?))
}

const RIGHT: &[u8] =
    b"server.document-root \"/srv/|server.port 1|server.port 65535|server.bind \"127.0.0.1|server.modules (a,b|\
server.tag \"web 1|server.max-request-size 0|server.max-request-size 4096|server.max-request-size 4097|\
server.max-keep-alive-requests 0|index-file.names (index.html|mimetype.assign (.a=b/c,=d/e|mimetype.assign (|\
static-file.exclude-extensions (.php,/|url.rewrite-once (^/a=/b$1%1|url.rewrite-repeat (|fastcgi.balance \"fair|\
proxy.balance \"round-robin|proxy.balance \"least-connection|fastcgi.server (|proxy.server [/p>host:127.0.0.1&port:#8080|\
fastcgi.server [/app>host:127.0.0.1&port:#9000&check-local:disable,.php>!host:1.2.3.4&port:#65535&check-local:enable|\
proxy.server [/>host:1.2.3.4;host:1.2.3.4&host:#5";

const PARTLY: &[u8] =
    b"fastcgi.balance \"hash|proxy.balance \"sticky|proxy.server [/>host:1.2.3.4;host:1.2.3.4&weight:#5|proxy.server [/>!host:1.2.3.4&:x";

const WRONG_TYPE: &[u8] =
    b"server.document-root 1|server.port \"80|server.bind (|server.modules \"a|server.tag 1|server.max-request-size \"1|\
server.max-keep-alive-requests (|index-file.names (a=b|mimetype.assign (a|static-file.exclude-extensions 1|index-file.names (a/b,a=b|\
url.rewrite-once (a|url.rewrite-repeat \"a|fastcgi.server \"a|proxy.server 1|fastcgi.balance 1|proxy.balance (fair";

const BAD: &[u8] =
    b"server.document-root \"srv|server.document-root \"|server.port 0|server.port 65536|server.port -|server.bind \"1.2.3|\
server.tag \"\x7f|server.max-request-size -|server.max-keep-alive-requests -|index-file.names (a/b|mimetype.assign (.a=\x1f|\
url.rewrite-once (a=/%{b}|url.rewrite-repeat (a=b,c=${|proxy.balance \"Fair|fastcgi.server [/>host:1.2.3.4|fastcgi.server (a=b|\
proxy.server [host:1.2.3.4>host:1.2.3.4;port:#80|proxy.server [>host:1.2.3.4|proxy.server [/>host:1.2.3|proxy.server [/>host:1.2.3.4&port:#0|\
proxy.server [/>host:1.2.3.4&port:80|proxy.server [/>host:1.2.3.4&check-local:yes|proxy.server [/a>host:1.2.3.4,/b>!host:#1&host:1.2.3.4|\
proxy.server (/=a";

const UNKNOWN: &[u8] =
    b"server.username \"a|var.a 1|url.rewrite (a=b|url.rewrite-if-not-file (a=b|scgi.server (|server.portt 1|server.por 1";

fn all_are(rt: &impl Abort, alloc: Global, rows: &[u8], expected: KeyCheck) {
    for row in rows.split(|byte| *byte == b'|') {
        let mut words = row.splitn(2, |byte| *byte == b' ');
        let key = words.next().unwrap_or(b"");
        let word = words.next().unwrap_or(b"");
        assert!(rt; checked(alloc, key, word) == Ok(expected));
    }
}

#[test]
fn each_key_takes_values_of_its_kind_that_keep_its_rule(rt: HostRuntime) {
    let alloc = rt.alloc();
    all_are(&rt, alloc, RIGHT, KeyCheck::Known);
    all_are(&rt, alloc, PARTLY, KeyCheck::Partly);
    all_are(&rt, alloc, WRONG_TYPE, KeyCheck::WrongType);
    all_are(&rt, alloc, BAD, KeyCheck::BadValue);
    all_are(&rt, alloc, UNKNOWN, KeyCheck::Unknown);
}

fn long(alloc: Global, length: usize) -> Result<KeyCheck, NoMemory> {
    let mut text = Text::new(alloc);
    for _ in 0..length {
        text.push(b'a')?;
    }
    Ok(check_value(b"server.tag", &Value::Text(text)))
}

// So many hosts in a list.
fn many(alloc: Global, hosts: usize) -> Result<KeyCheck, NoMemory> {
    let mut word = Text::from_bytes(alloc, b"[/>host:1.2.3.4")?;
    for _ in 1..hosts {
        word.push_all(b";host:1.2.3.4")?;
    }
    checked(alloc, b"proxy.server", word.bytes())
}

#[test]
fn a_text_has_at_most_4096_bytes_and_a_list_16_hosts(rt: HostRuntime) {
    let alloc = rt.alloc();
    assert!(&rt; long(alloc, 4096) == Ok(KeyCheck::Known));
    assert!(&rt; long(alloc, 4097) == Ok(KeyCheck::BadValue));
    assert!(&rt; many(alloc, 16) == Ok(KeyCheck::Known));
    assert!(&rt; many(alloc, 17) == Ok(KeyCheck::BadValue));
}

// A block as settings `KEY VALUE`, with `|` between them. The patterns of each begin with number 7.
fn block(alloc: Global, rows: &[u8]) -> Result<Block, NoMemory> {
    let mut settings = List::new(alloc);
    for row in rows.split(|byte| *byte == b'|') {
        let mut words = row.splitn(2, |byte| *byte == b' ');
        let key = Text::from_bytes(alloc, words.next().unwrap_or(b""))?;
        let value = value(alloc, words.next().unwrap_or(b""))?;
        settings.push(Setting {
            key,
            value,
            first_pattern: 7,
        })?;
    }
    Ok(Block {
        parent: 0,
        chain: None,
        condition: None,
        settings,
    })
}

fn config(alloc: Global, blocks: &[u8]) -> Result<Config, NoMemory> {
    let mut all = List::new(alloc);
    for rows in blocks.split(|byte| *byte == b'{') {
        all.push(block(alloc, rows)?)?;
    }
    Ok(Config {
        blocks: all,
        warnings: List::new(alloc),
    })
}

const BLOCKS: &[u8] =
    b"server.document-root \"/srv/|server.port 8080|server.max-request-size 0|index-file.names (a,b|server.modules (mod_rewrite,mod_fastcgi|\
proxy.server [/>!host:1.2.3.4,/q>!host:1.2.3.4{\
server.tag \"one|server.port 9|server.max-request-size 4096|server.max-keep-alive-requests 0|url.rewrite-once (a=b,c=d{\
server.tag \"two|server.document-root \"/|server.max-request-size 4097|fastcgi.balance \"round-robin|proxy.balance \"round-robin|\
fastcgi.server [/x>!host:1.2.3.4&port:#1,.y>host:1.2.3.4&port:#2;host:5.6.7.8&port:#9000&check-local:disable";

fn number_to(out: &mut Text, number: u64) -> Result<(), NoMemory> {
    out.push(b' ')?;
    out.push_all(decimal(number).bytes())
}

// What the settings say of the tag, the root, the port and the numbers.
fn line(out: &mut Text, settings: &Settings<'_>) -> Result<(), NoMemory> {
    out.push_all(settings.server_tag)?;
    out.push(b' ')?;
    out.push_all(settings.server_document_root)?;
    number_to(out, settings.server_port)?;
    number_to(out, settings.server_max_request_size)?;
    number_to(out, settings.server_max_keep_alive_requests)?;
    number_to(out, settings.index_file_names.len() as u64)
}

fn rules(out: &mut Text, rules: Rules<'_>) -> Result<(), NoMemory> {
    number_to(out, u64::from(rules.block))?;
    number_to(out, u64::from(rules.first_pattern))?;
    number_to(out, rules.rules.len() as u64)
}

// The keys of the entries, the number of each list, and the port of its last host, with `!` where no file is looked for.
fn gates(out: &mut Text, gateways: Gateways<'_>, balance: Policy) -> Result<(), NoMemory> {
    for at in 0..gateways.len() {
        if let Some(hosts) = gateways.get(at) {
            out.push(b' ')?;
            out.push_all(hosts.key)?;
            number_to(out, hosts.list)?;
            if let Some(host) = hosts.get(hosts.len().saturating_sub(1)) {
                number_to(out, u64::from(host.at.port))?;
                out.push_all(if host.check_local { b"" } else { b"!" })?;
            }
        }
    }
    out.push_all(if balance == Policy::Fair {
        b" fair"
    } else {
        b" round"
    })
}

fn shown(alloc: Global, settings: &Settings<'_>) -> Result<Text, NoMemory> {
    let mut out = Text::new(alloc);
    line(&mut out, settings)?;
    rules(&mut out, settings.url_rewrite_once)?;
    rules(&mut out, settings.url_rewrite_repeat)?;
    gates(&mut out, settings.fastcgi_server, settings.fastcgi_balance)?;
    gates(&mut out, settings.proxy_server, settings.proxy_balance)?;
    Ok(out)
}

fn says(alloc: Global, truths: [Truth; 3], expected: &[u8]) -> Result<bool, NoMemory> {
    let config = config(alloc, BLOCKS)?;
    if config.blocks.len() != 3 || !has_few_lists(&config) {
        return Ok(false);
    }
    let index = index_of(alloc, &config)?;
    let settings = used_by(&config, &index, truths.as_slice());
    Ok(shown(alloc, &settings)?.bytes() == expected)
}

fn says_globally(alloc: Global, expected: &[u8]) -> Result<bool, NoMemory> {
    let config = config(alloc, BLOCKS)?;
    if !has_few_lists(&config) {
        return Ok(false);
    }
    Ok(shown(alloc, &global_settings(&config))?.bytes() == expected)
}

// mod_proxy is not named, so its keys have their defaults.
#[test]
fn the_last_block_that_is_true_counts(rt: HostRuntime) {
    let alloc = rt.alloc();
    let (yes, no, unset) = (Truth::True, Truth::False, Truth::Unset);
    let first = b"lighttpd /srv 8080 4194304 100 2 0 0 0 0 0 0 fair fair";
    assert!(&rt; says(alloc, [yes, no, unset], first) == Ok(true));
    assert!(&rt; says_globally(alloc, first) == Ok(true));
    assert!(&rt;
        says(
            alloc,
            [yes, yes, no],
            b"one /srv 8080 4194304 1 2 1 7 2 0 0 0 fair fair"
        ) == Ok(true)
    );
    assert!(&rt;
        says(
            alloc,
            [yes, yes, yes],
            b"two  8080 4194304 1 2 1 7 2 0 0 0 /x 2 1 .y 3 9000! round fair"
        ) == Ok(true)
    );
    assert!(&rt;
        says(
            alloc,
            [no, yes, yes],
            b"two  80 4194304 1 0 0 0 0 0 0 0 fair fair"
        ) == Ok(true)
    );
}
