//! The rules of a list, and the first of them that matches.
ghost use Rattle.std.specs.Prelude.{◌≡◌, ◌+◌, ◌<◌, IfOk, option_map};
ghost use Rattle.conditions.specs.Marked.{Marked};
ghost use Rattle.rewrite.specs.Rules.{Rule, rule_of, IsPattern, AreNumbered, match_of, first_match};
ghost use Rattle.rewrite.specs.Found.{lent_rule, lent_match};

use conditions::{Groups, Matchers};
use conf_value::{Pair, Value};
use lt_bytes::NoMemory;
use std::alloc::Global;

/// The rules that win on a target.
#[derive(Clone, Copy)]
pub struct Rules<'a> {
    /// The number of the first rule's pattern; the others follow.
    pub first_pattern: u32,
    pub pairs: &'a [Pair],
    /// The groups of the condition of the block that sets them.
    pub outer: &'a Groups,
}

/// A pattern, and what stands in the target's place where it matches.
#[derive(Clone, Copy)]
pub(crate) struct Lent<'a> {
    pattern: &'a [u8],
    replacement: &'a [u8],
}

/// A rule that matched.
#[derive(Drop)]
pub(crate) struct Found<'a> {
    pub(crate) replacement: &'a [u8],
    pub(crate) groups: Groups,
}

/// A pair with a key and a text as its value; any other is no rule.
fn rule_of<'a>(pair: &'a Pair) -> Option<Lent<'a>>
    ensures { option_map lent_rule result ≡ rule_of pair.now }
{
    let Some(pattern) = &pair.key else {
        return None;
    };
    match &pair.value {
        Value::Text(text) => Some(Lent {
            pattern: pattern.bytes(),
            replacement: text.bytes(),
        }),
        Value::Number(_) => None,
        Value::Array(_) => None,
    }
}

/// The match of a rule in a target.
fn match_of<'a>(
    alloc: Global,
    matchers: &mut Matchers<'_>,
    pattern: u32,
    pair: &'a Pair,
    raw: &[u8],
) -> Result<Option<Found<'a>>, NoMemory>
    requires { IsPattern matchers.old pattern (rule_of pair.now) }
    ensures found { IfOk result (λ found. option_map lent_match found ≡ match_of (rule_of pair.now) raw.now) }
    ensures same { matchers.new ≡ matchers.old }
{
    let Some(rule) = rule_of(pair) else {
        return Ok(None);
    };
    let mut groups = Groups::new(alloc);
    if matchers.find(pattern, raw, &mut groups)? {
        Ok(Some(Found {
            replacement: rule.replacement,
            groups,
        }))
    } else {
        Ok(None)
    }
}

/// The first rule that matches.
pub(crate) fn first_match<'a>(
    alloc: Global,
    matchers: &mut Matchers<'_>,
    first_pattern: u32,
    pairs: &'a [Pair],
    raw: &[u8],
) -> Result<Option<Found<'a>>, NoMemory>
    requires { AreNumbered matchers.old first_pattern pairs.now }
    ensures found { IfOk result (λ found. option_map lent_match found ≡ first_match pairs.now raw.now) }
    ensures same { matchers.new ≡ matchers.old }
{
    let mut pattern = first_pattern;
    for pair in pairs {
        match match_of(alloc, matchers, pattern, pair, raw) {
            Ok(Some(found)) => return Ok(Some(found)),
            Ok(None) => {}
            Err(NoMemory) => return Err(NoMemory),
        }
        pattern += 1;
    }
    Ok(None)
}
