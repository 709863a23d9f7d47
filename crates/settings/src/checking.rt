//! Whether a key takes a value.
ghost use Rattle.std.specs.Prelude.{◌≡◌, ◌≤◌, ◌==◌, drop, length};
ghost use Rattle.std.specs.List.{list_all, list_any};
ghost use Rattle.conf_value.specs.declared.value.Pair.{out-Pair};
ghost use Rattle.conf_value.specs.declared.value.Value.{out-Value};
ghost use Rattle.settings.specs.Checking as spec;

use crate::entry::{any_has_further, are_good};
use crate::key::{Key, key_of};
use crate::rule::{PortRule, Rule, TextRule};
use crate::short::are_short;
use crate::value::is_between;
use conf_value::{Pair, Value, read_address};

/// The greatest length of a text of a typed key, in bytes.
pub const TEXT_LIMIT: usize = 4096;

/// What is found of a key that is set to a value.
#[derive(Clone, Copy, Debug, PartialEq, Eq)]
pub enum KeyCheck {
    /// A typed key, and the value is right.
    Known,
    /// A typed key, and the value is right but for a part that has no effect.
    Partly,
    /// No typed key: it has no effect.
    Unknown,
    /// The value is of another kind.
    WrongType,
    /// The value breaks the key's rule.
    BadValue,
}

/// What is found of this key where it is set to this value.
pub fn check_value(key: &[u8], value: &Value) -> KeyCheck
    ensures { result ≡ spec.check key.now value.now }
{
    match key_of(key) {
        Some(key) => value_check(rule_of(key), value),
        None => KeyCheck::Unknown,
    }
}

/// The table: the kind and the rule of each key.
fn rule_of(key: Key) -> Rule
    ensures { result ≡ spec.rule_of key }
{
    match key {
        Key::DocumentRoot => Rule::Text(TextRule::Absolute),
        Key::Port => Rule::Number(1, 65535),
        Key::Bind => Rule::Text(TextRule::Address),
        Key::Modules => Rule::Texts(TextRule::Any),
        Key::Tag => Rule::Text(TextRule::Visible),
        Key::MaxRequestSize => Rule::Number(0, NUMBER_LIMIT),
        Key::MaxKeepAliveRequests => Rule::Number(0, NUMBER_LIMIT),
        Key::IndexFileNames => Rule::Texts(TextRule::Name),
        Key::MimetypeAssign => Rule::Table(TextRule::Visible),
        Key::ExcludeExtensions => Rule::Texts(TextRule::Any),
        Key::RewriteOnce => Rule::Table(TextRule::Template),
        Key::RewriteRepeat => Rule::Table(TextRule::Template),
        Key::FastcgiServer => Rule::Gateways(PortRule::Needed),
        Key::FastcgiBalance => Rule::Balance,
        Key::ProxyServer => Rule::Gateways(PortRule::Optional),
        Key::ProxyBalance => Rule::Balance,
    }
}

/// The greatest number that a configuration can write.
const NUMBER_LIMIT: u64 = i64::MAX as u64;

fn value_check(rule: Rule, value: &Value) -> KeyCheck
    ensures { result ≡ spec.value_check rule (out-Value value.now) }
{
    match (rule, value) {
        (Rule::Text(rule), Value::Text(text)) => known_if(is_good(rule, text.bytes())),
        (Rule::Number(least, most), Value::Number(number)) => known_if(is_between(
            least, most, *number,
        )),
        (Rule::Texts(rule), Value::Array(pairs)) => texts_check(rule, pairs.as_slice()),
        (Rule::Table(rule), Value::Array(pairs)) => table_check(rule, pairs.as_slice()),
        (Rule::Gateways(rule), Value::Array(pairs)) => gateways_check(rule, pairs.as_slice()),
        (Rule::Balance, Value::Text(word)) => balance_check(word.bytes()),
        _ => KeyCheck::WrongType,
    }
}

fn known_if(holds: bool) -> KeyCheck
    ensures { result ≡ spec.known_if holds }
{
    if holds {
        KeyCheck::Known
    } else {
        KeyCheck::BadValue
    }
}

fn texts_check(rule: TextRule, pairs: &[Pair]) -> KeyCheck
    ensures { result ≡ spec.array_check spec.is_item (spec.is_good_item rule) pairs.now }
{
    if are_items(pairs) {
        known_if(are_good_items(rule, pairs))
    } else {
        KeyCheck::WrongType
    }
}

fn are_items(pairs: &[Pair]) -> bool
    ensures { result ≡ list_all spec.is_item pairs.now }
{
    pairs
        .iter()
        .all(|pair| pair.key.is_none() && is_text(&pair.value))
}

fn are_good_items(rule: TextRule, pairs: &[Pair]) -> bool
    ensures { result ≡ list_all (spec.is_good_item rule) pairs.now }
{
    pairs.iter().all(|pair| is_good_text(rule, &pair.value))
}

fn table_check(rule: TextRule, pairs: &[Pair]) -> KeyCheck
    ensures { result ≡ spec.array_check spec.is_entry (spec.is_good_entry rule) pairs.now }
{
    if are_entries(pairs) {
        known_if(are_good_entries(rule, pairs))
    } else {
        KeyCheck::WrongType
    }
}

fn are_entries(pairs: &[Pair]) -> bool
    ensures { result ≡ list_all spec.is_entry pairs.now }
{
    pairs
        .iter()
        .all(|pair| pair.key.is_some() && is_text(&pair.value))
}

fn are_good_entries(rule: TextRule, pairs: &[Pair]) -> bool
    ensures { result ≡ list_all (spec.is_good_entry rule) pairs.now }
{
    pairs.iter().all(|pair| is_good_entry(rule, pair))
}

fn is_text(value: &Value) -> bool
    ensures { result ≡ spec.is_text (out-Value value.now) }
{
    match value {
        Value::Text(_) => true,
        Value::Number(_) | Value::Array(_) => false,
    }
}

fn is_good_text(rule: TextRule, value: &Value) -> bool
    ensures { result ≡ spec.is_good_text rule (out-Value value.now) }
{
    match value {
        Value::Text(text) => is_good(rule, text.bytes()),
        Value::Number(_) | Value::Array(_) => false,
    }
}

fn is_good_entry(rule: TextRule, pair: &Pair) -> bool
    ensures { result ≡ spec.is_good_entry rule pair.now }
{
    match &pair.key {
        Some(key) => is_short(key.bytes()) && is_good_text(rule, &pair.value),
        None => false,
    }
}

/// The text is short, and its rule holds.
fn is_good(rule: TextRule, text: &[u8]) -> bool
    ensures { result ≡ spec.is_good rule text.now }
{
    is_short(text) && follows(rule, text)
}

/// No text of a typed key is longer.
pub(crate) fn is_short(text: &[u8]) -> bool
    ensures { result ≡ spec.is_short text.now }
{
    text.len() <= TEXT_LIMIT
}

fn follows(rule: TextRule, text: &[u8]) -> bool
    ensures { result ≡ spec.follows rule text.now }
{
    match rule {
        TextRule::Any => true,
        TextRule::Absolute => text.starts_with(b"/"),
        TextRule::Address => read_address(text).is_some(),
        TextRule::Visible => is_visible(text),
        TextRule::Name => !has_slash(text),
        TextRule::Template => !has_name(text),
    }
}

fn is_visible(text: &[u8]) -> bool
    ensures { result ≡ list_all spec.is_visible text.now }
{
    text.iter().all(|byte| b' ' <= *byte && *byte <= b'~')
}

fn has_slash(text: &[u8]) -> bool
    ensures { result ≡ list_any (λ b. b == 47) text.now }
{
    text.iter().any(|byte| *byte == b'/')
}

fn opens_name(text: &[u8]) -> bool
    ensures { result ≡ spec.opens_name text.now }
{
    text.starts_with(b"${") || text.starts_with(b"%{")
}

fn opens_name_at(text: &[u8], at: usize) -> bool
    requires { at ≤ length text.now }
    ensures { result ≡ spec.opens_name (drop at text.now) }
{
    let (_, rest) = text.split_at(at);
    opens_name(rest)
}

fn has_name(text: &[u8]) -> bool
    ensures { result ≡ spec.has_name text.now }
{
    for at in 0..text.len() {
        if opens_name_at(text, at) {
            return true;
        }
    }
    false
}

/// Arrays of a configuration are nested at most so deep.
const MOST_NESTING: u32 = 64;

fn gateways_check(rule: PortRule, pairs: &[Pair]) -> KeyCheck
    ensures { result ≡ spec.gateways_check rule pairs.now }
{
    if are_gateways(rule, pairs) {
        partly_if(any_has_further(pairs))
    } else {
        KeyCheck::BadValue
    }
}

fn are_gateways(rule: PortRule, pairs: &[Pair]) -> bool
    ensures { result ≡ spec.are_gateways rule pairs.now }
{
    are_short(MOST_NESTING, pairs) && are_good(rule, pairs)
}

fn partly_if(holds: bool) -> KeyCheck
    ensures { result ≡ spec.partly_if holds }
{
    if holds {
        KeyCheck::Partly
    } else {
        KeyCheck::Known
    }
}

fn balance_check(word: &[u8]) -> KeyCheck
    ensures { result ≡ spec.balance_check word.now }
{
    if is_policy(word) {
        return KeyCheck::Known;
    }
    if is_other_policy(word) {
        KeyCheck::Partly
    } else {
        KeyCheck::BadValue
    }
}

fn is_policy(word: &[u8]) -> bool
    ensures { result ≡ spec.is_policy word.now }
{
    word == b"fair".as_slice()
        || word == b"least-connection".as_slice()
        || word == b"round-robin".as_slice()
}

fn is_other_policy(word: &[u8]) -> bool
    ensures { result ≡ spec.is_other_policy word.now }
{
    word == b"hash".as_slice() || word == b"sticky".as_slice()
}
