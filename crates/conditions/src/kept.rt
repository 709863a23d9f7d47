//! What is kept for one pattern: its matcher, and room for the places of its groups.
ghost use Rattle.std.specs.Prelude.{◌≡◌, ◌<◌, ◌≤◌, ◌∷◌, Some, length, map, IfOk, slice_range};
ghost use Rattle.std.specs.List.{range_with_len};
ghost use Rattle.regex.specs.Bytes.{regex_source};
ghost use Rattle.regex.specs.Locations.{location};
ghost use Rattle.conditions.specs.Groups.{IsRead, groups_by, text_of};
ghost use Rattle.conditions.specs.Comparing.{matches};
ghost use Rattle.conditions.specs.Kept.{AreInside, IsKept, marked};

use crate::groups::Groups;
use lt_bytes::{NoMemory, Text};
use regex::CaptureLocations;
use regex::bytes::{Matcher, Regex};
use std::alloc::Global;

/// The number of groups that are kept of a match.
const GROUPS: usize = 10;

/// A pattern, what searches for it, and room for the places of its groups.
#[derive(Drop)]
pub(crate) struct Kept<'p> {
    pattern: &'p Regex,
    matcher: Matcher<'p>,
    places: CaptureLocations,
    /// The pattern is one of a rule, and not that of a condition.
    rule: bool,
}

/// What is kept for a pattern.
pub(crate) fn kept_for<'p>(
    alloc: Global,
    pattern: &'p Regex,
    rule: bool,
) -> Result<Kept<'p>, NoMemory>
    requires { IsRead pattern.now }
    ensures kept { IfOk result IsKept }
    ensures marked { IfOk result (λ kept. marked kept ≡ (regex_source pattern.now, rule)) }
{
    let Ok(matcher) = pattern.matcher(alloc) else {
        return Err(NoMemory);
    };
    let Ok(places) = pattern.capture_locations(alloc) else {
        return Err(NoMemory);
    };
    Ok(Kept {
        pattern,
        matcher,
        places,
        rule,
    })
}

/// Whether the pattern matches somewhere.
pub(crate) fn is_found(kept: &mut Kept<'_>, hay: &[u8]) -> bool
    requires { IsKept kept.old }
    ensures found { result ≡ matches (marked kept.old).0 hay.now }
    ensures kept { IsKept kept.new }
    ensures same { marked kept.new ≡ marked kept.old }
{
    kept.matcher.is_match(hay)
}

/// The groups of the leftmost match, if the pattern matches somewhere.
pub(crate) fn found_in(
    alloc: Global,
    kept: &mut Kept<'_>,
    hay: &[u8],
) -> Result<Option<Groups>, NoMemory>
    requires { IsKept kept.old }
    ensures found { IfOk result (λ groups. groups ≡ groups_by (marked kept.old).0 hay.now) }
    ensures kept { IsKept kept.new }
    ensures same { marked kept.new ≡ marked kept.old }
{
    match kept.matcher.captures_read(&mut kept.places, hay) {
        Some(whole) => match groups_at(alloc, whole.as_bytes(), &kept.places, hay) {
            Ok(groups) => Ok(Some(groups)),
            Err(NoMemory) => Err(NoMemory),
        },
        None => Ok(None),
    }
}

/// The text at the place of a group.
fn text_at<'h>(places: &CaptureLocations, n: usize, hay: &'h [u8]) -> &'h [u8]
    requires inside { AreInside places.now hay.now }
    requires behind_whole { 1 ≤ n }
    ensures { result.now ≡ text_of hay.now (location places.now n) }
{
    match places.get(n) {
        Some((start, end)) => &hay[start..end],
        None => &[],
    }
}

/// The whole match, and the texts at the places of the groups 1 to 9.
fn groups_at(
    alloc: Global,
    whole: &[u8],
    places: &CaptureLocations,
    hay: &[u8],
) -> Result<Groups, NoMemory>
    requires { AreInside places.now hay.now }
    ensures { IfOk result (λ groups. groups
        ≡ whole.now ∷ map (λ n. text_of hay.now (location places.now n)) (range_with_len 1 9)) }
{
    let mut groups = Groups::new(alloc);
    groups.push(Text::from_bytes(alloc, whole)?)?;
    for n in 1..GROUPS {
        groups.push(Text::from_bytes(alloc, text_at(places, n, hay))?)?;
    }
    Ok(groups)
}
