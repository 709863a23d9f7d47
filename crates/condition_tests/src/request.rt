//! The request that conditions look at, and one comparison on it.
ghost use Rattle.std.specs.Prelude.{◌≡◌, ◌<◌, false};
ghost use Rattle.conditions.specs.Comparing.{HasPattern, tries_pattern};

use conditions::{
    Attrs, Groups, Made, Matchers, PatternMaker, RegexMaker, Steps, compare, field_of,
};
use conf_value::{Condition, Field, Op, Truth};
use http_head::Request;
use lt_bytes::{NoMemory, Text};
use lt_world::Address;
use std::alloc::Global;
use std::marker::Brand;
use std::sync::ledger::{Blank, Ledger};

/// Two fields come twice, and there is no Referer.
pub(crate) const HEAD: &[u8] =
    b"GET /a/b.html?x=1 HTTP/1.1\r\nHost: WWW.Example.org:8080\r\nUser-Agent: curl/8.5\r\nCookie: a=1\r\n\
cookie: b=2\r\nX-Two: p\r\nX-Two: q\r\n\r\n";

/// What conditions see of a request from 10.1.2.3 at 127.0.0.1:80.
pub(crate) fn seen<'r>(request: &'r Request, physical: Option<&'r [u8]>) -> Attrs<'r> {
    Attrs {
        host: request.host.bytes(),
        url: request.target.path.bytes(),
        query: request.target.query.bytes(),
        method: request.method.bytes(),
        peer: Address {
            ip: [10, 1, 2, 3],
            port: 40000,
        },
        local: Address {
            ip: [127, 0, 0, 1],
            port: 80,
        },
        fields: &request.fields,
        physical,
    }
}

/// The truth of a comparison, and the groups of its match.
pub(crate) type Found = (Truth, Groups);

/// One comparison, by a count of its own.
fn counted<L: Ledger>(
    blank: Blank,
    alloc: Global,
    condition: &Condition,
    attrs: &Attrs<'_>,
    matchers: &mut Matchers<'_>,
) -> Result<Found, NoMemory>
    requires name { blank.name ≡ L.name }
    requires parts { blank.parts ≡ L.parts }
    requires some { 0 < L.parts }
    requires pattern { HasPattern condition.now matchers.old }
{
    let mut steps: Steps<L> = Steps::new(blank);
    let mut groups = Groups::new(alloc);
    let truth = compare(
        alloc,
        condition,
        attrs,
        matchers,
        true,
        &mut groups,
        &mut steps,
    )?;
    Ok((truth, groups))
}

/// One comparison.
fn compared(
    alloc: Global,
    condition: &Condition,
    attrs: &Attrs<'_>,
    matchers: &mut Matchers<'_>,
) -> Result<Found, NoMemory>
    requires pattern { HasPattern condition.now matchers.old }
{
    counted::<Brand>(Blank::new(1), alloc, condition, attrs, matchers)
}

fn compare_pattern(
    alloc: Global,
    field: Field,
    op: Op,
    text: &[u8],
    attrs: &Attrs<'_>,
) -> Result<Option<Found>, NoMemory> {
    let Made::Pattern(pattern) = RegexMaker::new(alloc).make(text) else {
        return Ok(None);
    };
    let mut matchers = Matchers::new(alloc);
    let number = matchers.add(&pattern, false)?;
    let condition = Condition {
        field,
        op,
        text: Text::from_bytes(alloc, text)?,
        pattern: Some(number),
    };
    Ok(Some(compared(alloc, &condition, attrs, &mut matchers)?))
}

fn compare_text(
    alloc: Global,
    field: Field,
    op: Op,
    text: &[u8],
    attrs: &Attrs<'_>,
) -> Result<Found, NoMemory>
    requires { tries_pattern op ≡ false }
{
    let condition = Condition {
        field,
        op,
        text: Text::from_bytes(alloc, text)?,
        pattern: None,
    };
    compared(alloc, &condition, attrs, &mut Matchers::new(alloc))
}

/// What the condition comes to on these attributes, if there are such a field and such a pattern.
pub(crate) fn found(
    alloc: Global,
    group: &[u8],
    name: &[u8],
    op: Op,
    text: &[u8],
    attrs: &Attrs<'_>,
) -> Result<Option<Found>, NoMemory> {
    let Some(field) = field_of(alloc, group, name)? else {
        return Ok(None);
    };
    match op {
        Op::Match => compare_pattern(alloc, field, op, text, attrs),
        Op::NoMatch => compare_pattern(alloc, field, op, text, attrs),
        Op::Equal => Ok(Some(compare_text(alloc, field, op, text, attrs)?)),
        Op::NotEqual => Ok(Some(compare_text(alloc, field, op, text, attrs)?)),
        Op::Prefix => Ok(Some(compare_text(alloc, field, op, text, attrs)?)),
        Op::Suffix => Ok(Some(compare_text(alloc, field, op, text, attrs)?)),
    }
}

/// The letter of a truth; a minus sign where there was no comparison.
pub(crate) fn letter(found: &Option<Found>) -> u8 {
    match found {
        Some((Truth::True, _)) => b'T',
        Some((Truth::False, _)) => b'F',
        Some((Truth::Unset, _)) => b'U',
        None => b'-',
    }
}
