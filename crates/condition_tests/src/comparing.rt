//! Each field with each operator, and the rules of single fields.
use crate::request::{HEAD, found, letter, seen};
use conditions::Attrs;
use conf_value::Op;
use http_head::read_head;
use lt_bytes::{NoMemory, Text};
use std::alloc::Global;
use std::str;
use std::test::Fail;

/// Rows, a `~` between them: group and name of a field, its value, what it begins with, what it ends with, and a
/// pattern that matches in it.
const FIELDS: &[u8] = b"\
HTTP|host|www.example.org|www.|.org|e.a~\
HTTP|url|/a/b.html|/a|l|b\\.h~\
HTTP|query-string|x=1|x|=1|=~\
HTTP|request-method|GET|GET|ET|^G.T$~\
HTTP|scheme|http|h||t{2}~\
HTTP|user-agent|curl/8.5|curl|5|[0-9]$~\
HTTP|referer||||^$~\
HTTP|cookie|a=1; b=2|a=1|; b=2|1; b~\
HTTP|remote-ip|10.1.2.3|10.|.3|^10\\.~\
REQUEST_HEADER|x-TWO|p, q|p,|, q|p|x~\
REQUEST_HEADER|COOKIE|a=1; b=2|a=1;|b=2|;~\
REQUEST_HEADER|Absent||||^$~\
SERVER|socket|127.0.0.1:80|127|:80|:80$";

/// The letters of a field's value and of another text, by `==`, `!=`, `=^`, `=$`, `=~` and `!~`.
const KNOWN: &[u8] = b"TFFTTFTFTFFT";

/// The same where the value is not known.
const UNKNOWN: &[u8] = b"UUUUUUUUUUUU";

/// The field of a row.
#[derive(Clone, Copy)]
struct Row<'t> {
    group: &'t [u8],
    name: &'t [u8],
}

impl Row<'_> {
    /// Adds the letters of this text and of one that is nowhere in a value.
    fn push(
        &self,
        alloc: Global,
        op: Op,
        text: &[u8],
        attrs: &Attrs<'_>,
        letters: &mut Text,
    ) -> Result<(), NoMemory> {
        letters.push(letter(&found(alloc, self.group, self.name, op, text, attrs)?))?;
        letters.push(letter(&found(alloc, self.group, self.name, op, b"#", attrs)?))
    }
}

fn letters(alloc: Global, row: &[u8], attrs: &Attrs<'_>) -> Result<Text, NoMemory> {
    let mut words = row.splitn(6, |byte| *byte == b'|');
    let group = words.next().unwrap_or(&[]);
    let name = words.next().unwrap_or(&[]);
    let row = Row { group, name };
    let value = words.next().unwrap_or(&[]);
    let mut letters = Text::new(alloc);
    row.push(alloc, Op::Equal, value, attrs, &mut letters)?;
    row.push(alloc, Op::NotEqual, value, attrs, &mut letters)?;
    row.push(
        alloc,
        Op::Prefix,
        words.next().unwrap_or(&[]),
        attrs,
        &mut letters,
    )?;
    row.push(
        alloc,
        Op::Suffix,
        words.next().unwrap_or(&[]),
        attrs,
        &mut letters,
    )?;
    let pattern = words.next().unwrap_or(&[]);
    row.push(alloc, Op::Match, pattern, attrs, &mut letters)?;
    row.push(alloc, Op::NoMatch, pattern, attrs, &mut letters)?;
    Ok(letters)
}

#[test]
fn each_operator_holds_of_each_field_as_documented(rt: HostRuntime) -> Result<(), Fail> {
    let request = read_head(rt.alloc(), HEAD)?;
    for row in FIELDS.split(|byte| *byte == b'~') {
        let name = str::from_utf8(row)?;
        let found = letters(rt.alloc(), row, &seen(&request, None))?;
        assert_eq!(rt; found.bytes(), KNOWN, "{name}");
    }
    Ok(())
}

#[test]
fn the_path_of_the_file_is_unset_until_it_is_known(rt: HostRuntime) -> Result<(), Fail> {
    let request = read_head(rt.alloc(), HEAD)?;
    let row = b"PHYSICAL|path|/srv/a/b.html|/srv|html|b".as_slice();
    let before = letters(rt.alloc(), row, &seen(&request, None))?;
    assert_eq!(rt; before.bytes(), UNKNOWN);
    let after = letters(rt.alloc(), row, &seen(&request, Some(b"/srv/a/b.html")))?;
    assert_eq!(rt; after.bytes(), KNOWN);
    Ok(())
}

/// The letters of texts, a blank between them, that a field is compared with by `==`.
fn equal(
    alloc: Global,
    group: &[u8],
    name: &[u8],
    texts: &[u8],
    attrs: &Attrs<'_>,
) -> Result<Text, NoMemory> {
    let mut letters = Text::new(alloc);
    for text in texts.split(|byte| *byte == b' ') {
        letters.push(letter(&found(alloc, group, name, Op::Equal, text, attrs)?))?;
    }
    Ok(letters)
}

#[test]
fn an_address_lies_in_a_network_by_its_bits(rt: HostRuntime) -> Result<(), Fail> {
    let request = read_head(rt.alloc(), HEAD)?;
    let attrs = seen(&request, None);
    let texts =
        b"10.1.2.3/32 10.1.2.2/32 10.1.2.2/31 10.1.2.1/31 10.1.0.0/16 10.0.0.0/16 10.0.0.0/15 11.0.0.0/8 \
11.0.0.0/7 138.1.2.3/1 255.255.255.255/0 10.1.2.3/33";
    let letters = equal(rt.alloc(), b"HTTP", b"remote-ip", texts, &attrs)?;
    assert_eq!(rt; letters.bytes(), b"TFTFTFTFTFTF".as_slice());
    Ok(())
}

#[test]
fn a_socket_is_compared_whole_or_by_its_port(rt: HostRuntime) -> Result<(), Fail> {
    let request = read_head(rt.alloc(), HEAD)?;
    let attrs = seen(&request, None);
    let texts = b":80 : :8 :080 :8080 127.0.0.1:80 127.0.0.1 127.0.0.1:8 80";
    let letters = equal(rt.alloc(), b"SERVER", b"socket", texts, &attrs)?;
    assert_eq!(rt; letters.bytes(), b"TFFFFTFFF".as_slice());
    Ok(())
}

#[test]
fn other_names_are_no_fields(rt: HostRuntime) -> Result<(), Fail> {
    let request = read_head(rt.alloc(), HEAD)?;
    let attrs = seen(&request, None);
    let texts = b"HTTP|Host HTTP|language HTTP|socket SERVER|name PHYSICAL|dir http|host |host";
    for text in texts.split(|byte| *byte == b' ') {
        let mut words = text.split(|byte| *byte == b'|');
        let group = words.next().unwrap_or(&[]);
        let letters = equal(rt.alloc(), group, words.next().unwrap_or(&[]), b"x", &attrs)?;
        assert_eq!(rt; letters.bytes(), b"-".as_slice());
    }
    Ok(())
}
