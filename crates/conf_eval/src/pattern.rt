//! The patterns of a configuration.
ghost use Rattle.std.specs.Prelude.{◌≡◌, ◌+◌, ◌<◌, ◌≤◌, ◌^◌, ◌++◌, [], ◌∷◌, IfOk, OnOk, length, take};
ghost use Rattle.conditions.specs.Groups.{IsPatternOf};

use conditions::Matchers;
use lt_bytes::{List, NoMemory};
use regex::bytes::Regex;
use std::alloc::Global;
use std::marker::Model;

/// A pattern that was made, with the mark whether it is a rule's. Contracts see its text and the mark.
#[derive(Drop)]
pub struct Pattern {
    regex: Regex,
    rule: bool,
}

impl Model for Pattern {
    ghost use Rattle.std.specs.Coded.{coded_list, coded×, coded_ℕ, coded_bool};
    ghost use Rattle.regex.specs.Bytes.{regex_source};
    ghost use Rattle.conditions.specs.Groups.{IsRead};
    ghost use Rattle.conditions.specs.Marked.{Marked};

    ghost Value = { Marked };

    ghost coded = { coded× (coded_list coded_ℕ) coded_bool };

    ghost view = { λ p. (regex_source p.regex, p.rule) };

    ghost invariant = { λ p. IsRead p.regex };
}

impl Pattern {
    // The pattern that was made of this text, `text`.
    pub(crate) fn new(text: &[u8], regex: Regex, rule: bool) -> Pattern
        requires { IsPatternOf text.now regex }
        ensures { result ≡ (text.now, rule) }
    {
        let _ = text;
        Pattern { regex, rule }
    }

    // Adds its matcher.
    fn add_to<'p>(&'p self, matchers: &mut Matchers<'p>) -> Result<(), NoMemory>
        requires { length matchers.old < 2 ^ 32 }
        ensures { OnOk result (matchers.new ≡ matchers.old ++ self.now ∷ []) }
    {
        match matchers.add(&self.regex, self.rule) {
            Ok(_) => Ok(()),
            Err(_) => Err(NoMemory),
        }
    }
}

/// The matchers of all patterns, under their numbers.
pub fn matchers<'p>(alloc: Global, patterns: &'p List<Pattern>) -> Result<Matchers<'p>, NoMemory>
    requires few { length patterns.now < 2 ^ 32 }
    ensures matchers { IfOk result (λ matchers. matchers ≡ patterns.now) }
{
    let mut matchers = Matchers::new(alloc);
    for pattern in patterns.as_slice() {
        pattern.add_to(&mut matchers)?;
    }
    Ok(matchers)
}
