//! What the rules make of a target.
ghost use Rattle.std.specs.Prelude.{◌≡◌, IfOk, option_map};
ghost use Rattle.http_target.specs.Target.{target_of};
ghost use Rattle.rewrite.specs.Found.{lent_match, lent_list};
ghost use Rattle.rewrite.specs.Rules.{AreNumbered, first_match};
ghost use Rattle.rewrite.specs.Rewriting.{text_of, once_by, repeat_by, next_of, new_target};

use crate::rules::{Found, Rules, first_match};
use conditions::{Groups, Matchers, fill_template};
use http_target::{Target, TargetRefusal, read_target};
use lt_bytes::{NoMemory, Text};
use std::alloc::Global;

/// What comes of a target.
#[derive(Debug, Drop)]
pub enum Next {
    /// No rule matches, or one with an empty replacement.
    Kept,
    /// A new target, with which the rewriting ends.
    Once(Text),
    /// A new target, with which all begins again.
    Repeat(Text),
}

/// No new target is longer.
const MOST_BYTES: usize = 8_192;

/// The text that a match makes; none where the replacement is empty.
fn text_of(alloc: Global, found: &Found<'_>, outer: &Groups) -> Result<Option<Text>, NoMemory>
    ensures { IfOk result (λ text. text ≡ text_of (lent_match found.now) outer.now) }
{
    if found.replacement.is_empty() {
        return Ok(None);
    }
    let text = fill_template(alloc, found.replacement, &found.groups, outer)?;
    Ok(Some(text))
}

fn once_by(text: Option<Text>) -> Next
    ensures { result ≡ once_by text }
{
    match text {
        Some(text) => Next::Once(text),
        None => Next::Kept,
    }
}

fn repeat_by(text: Option<Text>) -> Next
    ensures { result ≡ repeat_by text }
{
    match text {
        Some(text) => Next::Repeat(text),
        None => Next::Kept,
    }
}

/// What two lists make of a target: the first match counts, first of the once list, then of the repeat list.
pub fn next_of(
    alloc: Global,
    matchers: &mut Matchers<'_>,
    once: Rules<'_>,
    repeat: Rules<'_>,
    raw: &[u8],
) -> Result<Next, NoMemory>
    requires once { AreNumbered matchers.old once.first_pattern once.pairs.now }
    requires repeat { AreNumbered matchers.old repeat.first_pattern repeat.pairs.now }
    ensures next { IfOk result (λ next. next ≡ next_of (record { once = lent_list once.entry; repeat = lent_list repeat.entry }) raw.now) }
    ensures same { matchers.new ≡ matchers.old }
{
    if let Some(found) = first_match(alloc, matchers, once.first_pattern, once.pairs, raw)? {
        return Ok(once_by(text_of(alloc, &found, once.outer)?));
    }
    match first_match(alloc, matchers, repeat.first_pattern, repeat.pairs, raw)? {
        Some(found) => Ok(repeat_by(text_of(alloc, &found, repeat.outer)?)),
        None => Ok(Next::Kept),
    }
}

/// A new target, without the authority that it may have; none where it is too long or bad.
pub(crate) fn new_target(alloc: Global, text: &[u8]) -> Result<Option<Target>, NoMemory>
    ensures { IfOk result (λ target. target ≡ new_target text.now) }
{
    if text.len() > MOST_BYTES {
        return Ok(None);
    }
    match read_target(alloc, text) {
        Ok(target) => Ok(Some(target)),
        Err(TargetRefusal::BadTarget) => Ok(None),
        Err(TargetRefusal::NoMemory) => Err(NoMemory),
    }
}
