//! Templates: what a replacement stands for at a match.
ghost use Rattle.std.specs.Prelude.{◌≡◌, ◌≤◌, ◌<◌, ◌-◌, ◌++◌, IfOk, IfSome, Some, None, length, drop, if◌then◌else◌};
ghost use Rattle.std.specs.Char.{is_ascii_digit};
ghost use Rattle.conditions.specs.Template.{filled};

use crate::groups::Groups;
use lt_bytes::{NoMemory, Text};
use std::alloc::Global;

/// The number that a digit writes.
fn digit_of(byte: u8) -> Option<u8>
    ensures value { result ≡ (if is_ascii_digit byte then Some (byte - 48) else None) }
    ensures small { IfSome result (λ digit. digit < 10) }
{
    if byte >= b'0' && byte <= b'9' {
        Some(byte - b'0')
    } else {
        None
    }
}

/// How many bytes the first piece of a template has, and what it stands for: a sign with a digit for a group, any
/// other byte for itself.
fn first_piece<'t>(template: &'t [u8], own: &'t Groups, outer: &'t Groups) -> (usize, &'t [u8])
    requires { 0 < length template.now }
    ensures filled { filled own.now outer.now template.now
        ≡ result.1.now ++ filled own.now outer.now (drop result.0 template.now) }
    ensures some { 0 < result.0 }
    ensures within { result.0 ≤ length template.now }
{
    if template.len() == 1 {
        return (1, &template[..1]);
    }
    let Some(digit) = digit_of(template[1]) else {
        return (1, &template[..1]);
    };
    if template[0] == b'$' {
        return (2, own.get(digit));
    }
    if template[0] == b'%' {
        return (2, outer.get(digit));
    }
    (1, &template[..1])
}

/// The template with `$0` to `$9` replaced by the groups of the rule, and `%0` to `%9` by those of the condition
/// around it. Any other `$` or `%` stands for itself.
pub fn fill_template(
    alloc: Global,
    template: &[u8],
    own: &Groups,
    outer: &Groups,
) -> Result<Text, NoMemory>
    ensures { IfOk result (λ text. text ≡ filled own.now outer.now template.now) }
{
    let mut text = Text::new(alloc);
    let mut rest = template;
    while !rest.is_empty() {
        let (size, piece) = first_piece(rest, own, outer);
        text.push_all(piece)?;
        rest = &rest[size..];
    }
    Ok(text)
}
