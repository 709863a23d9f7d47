//! Comparisons: the one place where conditions are tried.
ghost use Rattle.std.specs.Prelude.{◌≡◌, ◌+◌, ◌∷◌, bytes_eq, decimal, IfOk, OnOk, OnErr, [], option_map, true, if◌then◌else◌};
ghost use Rattle.conditions.specs.Attributes.{attributes_of, value_of};
ghost use Rattle.conditions.specs.Comparing.{HasPattern, begins_with_colon, holds, is_socket, is_text, matches, own_groups, own_truth, tries_pattern, truth_by};

use crate::attrs::Attrs;
use crate::groups::Groups;
use crate::matchers::Matchers;
use crate::network::is_in_network;
use crate::steps::Steps;
use crate::values::{socket, value_of};
use conf_value::{Condition, Field, Op, Truth};
use lt_bytes::{NoMemory, decimal};
use lt_world::Address;
use std::alloc::Global;
use std::sync::ledger::Ledger;

fn begins_with_colon(text: &[u8]) -> bool
    ensures { result ≡ begins_with_colon text.now }
{
    match text {
        [first, ..] => *first == b':',
        [] => false,
    }
}

/// Whether the text is a colon and the port.
fn is_port(text: &[u8], port: u16) -> bool
    ensures { result ≡ bytes_eq text.now (58 ∷ decimal port) }
{
    let digits = decimal(u64::from(port));
    match text {
        [b':', rest @ ..] => rest == digits.bytes(),
        _ => false,
    }
}

/// Whether the text names the socket, or its port alone behind a colon.
fn is_socket(alloc: Global, text: &[u8], local: &Address) -> Result<bool, NoMemory>
    ensures { IfOk result (λ is. is ≡ is_socket text.now local.now) }
{
    if begins_with_colon(text) {
        return Ok(is_port(text, local.port));
    }
    let whole = socket(alloc, local)?;
    Ok(text == whole.bytes())
}

/// Whether the attribute is that of the text, if it is known.
fn is_text(
    alloc: Global,
    field: &Field,
    text: &[u8],
    attrs: &Attrs<'_>,
) -> Result<Option<bool>, NoMemory>
    ensures { IfOk result (λ is. is ≡ option_map (is_text field.now text.now (attributes_of attrs.now))
        (value_of field.now (attributes_of attrs.now))) }
{
    match field {
        Field::RemoteIp => Ok(Some(is_in_network(text, attrs.peer.ip))),
        Field::Socket => Ok(Some(is_socket(alloc, text, &attrs.local)?)),
        _ => match value_of(alloc, field, attrs)? {
            Some(value) => Ok(Some(value.bytes() == text)),
            None => Ok(None),
        },
    }
}

/// Whether the pattern of a condition matches, if the attribute is known.
fn is_match(
    alloc: Global,
    condition: &Condition,
    attrs: &Attrs<'_>,
    matchers: &mut Matchers<'_>,
) -> Result<Option<bool>, NoMemory>
    requires tries { tries_pattern condition.now.op ≡ true }
    requires pattern { HasPattern condition.now matchers.old }
    ensures is { IfOk result (λ is. is ≡ option_map (matches condition.now.text)
        (value_of condition.now.field (attributes_of attrs.now))) }
    ensures matchers { matchers.new ≡ matchers.old }
{
    let Some(pattern) = condition.pattern else {
        unreachable!()
    };
    match value_of(alloc, &condition.field, attrs)? {
        Some(value) => Ok(Some(matchers.is_found(pattern, value.bytes()))),
        None => Ok(None),
    }
}

/// Whether the condition holds, if the attribute is known.
fn is_held(
    alloc: Global,
    condition: &Condition,
    attrs: &Attrs<'_>,
    matchers: &mut Matchers<'_>,
) -> Result<Option<bool>, NoMemory>
    requires pattern { HasPattern condition.now matchers.old }
    ensures is { IfOk result (λ is. is ≡ option_map (holds condition.now.op condition.now.field condition.now.text
        (attributes_of attrs.now)) (value_of condition.now.field (attributes_of attrs.now))) }
    ensures matchers { matchers.new ≡ matchers.old }
{
    let text = condition.text.bytes();
    match condition.op {
        Op::Equal => is_text(alloc, &condition.field, text, attrs),
        Op::NotEqual => match is_text(alloc, &condition.field, text, attrs)? {
            Some(is) => Ok(Some(!is)),
            None => Ok(None),
        },
        Op::Match => is_match(alloc, condition, attrs, matchers),
        Op::NoMatch => match is_match(alloc, condition, attrs, matchers)? {
            Some(is) => Ok(Some(!is)),
            None => Ok(None),
        },
        Op::Prefix => match value_of(alloc, &condition.field, attrs)? {
            Some(value) => Ok(Some(value.bytes().starts_with(text))),
            None => Ok(None),
        },
        Op::Suffix => match value_of(alloc, &condition.field, attrs)? {
            Some(value) => Ok(Some(value.bytes().ends_with(text))),
            None => Ok(None),
        },
    }
}

fn truth_of(is: Option<bool>) -> Truth
    ensures { result ≡ truth_by is }
{
    match is {
        Some(true) => Truth::True,
        Some(false) => Truth::False,
        None => Truth::Unset,
    }
}

/// The truth of a condition that tries a pattern and wants it, and the groups of its match.
fn matched(
    alloc: Global,
    condition: &Condition,
    attrs: &Attrs<'_>,
    matchers: &mut Matchers<'_>,
) -> Result<(Truth, Groups), NoMemory>
    requires op { condition.now.op ≡ Op.Match }
    requires pattern { HasPattern condition.now matchers.old }
    ensures truth { IfOk result (λ r. r.0 ≡ own_truth condition.now (attributes_of attrs.now)) }
    ensures groups { IfOk result (λ r. r.1 ≡ own_groups condition.now (attributes_of attrs.now)) }
    ensures matchers { matchers.new ≡ matchers.old }
{
    let Some(pattern) = condition.pattern else {
        unreachable!()
    };
    let Some(value) = value_of(alloc, &condition.field, attrs)? else {
        return Ok((Truth::Unset, Groups::new(alloc)));
    };
    match matchers.found_in(pattern, value.bytes())? {
        Some(groups) => Ok((Truth::True, groups)),
        None => Ok((Truth::False, Groups::new(alloc))),
    }
}

/// Compares a condition, which is one step. Its truth is Unset exactly where the attribute is not known. Where
/// `keep` holds, the groups become those of its match, and else empty.
pub fn compare<L: Ledger>(
    alloc: Global,
    condition: &Condition,
    attrs: &Attrs<'_>,
    matchers: &mut Matchers<'_>,
    keep: bool,
    groups: &mut Groups,
    steps: &mut Steps<L>,
) -> Result<Truth, NoMemory>
    requires pattern { HasPattern condition.now matchers.old }
    ensures truth { IfOk result (λ truth. truth ≡ own_truth condition.now (attributes_of attrs.now)) }
    ensures groups { OnOk result (groups.new ≡ (if keep then own_groups condition.now (attributes_of attrs.now) else [])) }
    ensures err { OnErr result (groups.new ≡ groups.old) }
    ensures matchers { matchers.new ≡ matchers.old }
    ensures steps { steps.new ≡ steps.old + 1 }
{
    steps.tick();
    if keep {
        if let Op::Match = condition.op {
            let (truth, found) = matched(alloc, condition, attrs, matchers)?;
            *groups = found;
            return Ok(truth);
        }
    }
    let is = is_held(alloc, condition, attrs, matchers)?;
    *groups = Groups::new(alloc);
    Ok(truth_of(is))
}
