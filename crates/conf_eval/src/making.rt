//! The patterns of a configuration, as they are made.
ghost use Rattle.std.specs.Prelude.{◌≡◌, ◌≤◌, ◌++◌, List, [], ◌∷◌, OnOk, Ok, Err};
ghost use Rattle.lt_world.specs.declared.texts.Fetch.{Fetch};
ghost use Rattle.conf_eval.specs.Answers.{Cause, Ran, kept};
ghost use Rattle.conf_eval.specs.Kept.{state_of};
ghost use Rattle.conf_eval.specs.Parts as spec;
ghost use Rattle.conf_eval.specs.Settings.{pattern_of};
ghost use Rattle.conf_eval.specs.Sound.{marks_of};

use crate::faults::fault;
use crate::limits::MAX_PATTERNS;
use crate::loading::Loading;
use crate::{ConfKind, LoadError};
use conditions::{Made, PatternMaker};
use conf_value::Pair;

/// One more pattern, which is a rule's or a condition's.
pub fn make<M: PatternMaker>(
    loading: &mut Loading,
    maker: &mut M,
    file: u32,
    line: u32,
    rule: bool,
    text: &[u8],
) -> Result<(), LoadError>
    ensures ran { (texts : List Fetch) → Ran (spec.makes file line rule text.now) (state_of loading.old) (kept texts (M.calls maker.old)) (kept texts (M.calls maker.new)) result (state_of loading.new) }
    ensures patterns { OnOk result (loading.new.built.patterns ≡ loading.old.built.patterns ++ (text.now, rule) ∷ []) }
    ensures blocks { OnOk result (loading.new.built.blocks ≡ loading.old.built.blocks) }
    ensures cause { Cause result 0 0 (M.refusals maker.old) (M.refusals maker.new) }
    ensures refusals { M.refusals maker.old ≤ M.refusals maker.new }
{
    if loading.built.patterns() >= MAX_PATTERNS {
        return Err(fault(ConfKind::TooMany, file, line));
    }
    match maker.make(text) {
        Made::Pattern(regex) => match loading.built.add(text, regex, rule) {
            Ok(()) => Ok(()),
            Err(_) => Err(LoadError::NoMemory),
        },
        Made::Refused => Err(fault(ConfKind::PatternRefused, file, line)),
        Made::NoMemory => Err(LoadError::NoMemory),
    }
}

// The text of a rule's pattern.
fn text_of(rule: &Pair) -> &[u8]
    ensures { result.now ≡ pattern_of rule.now }
{
    match &rule.key {
        Some(key) => key.bytes(),
        None => &[],
    }
}

/// The patterns of these rules, in order.
pub fn make_rules<M: PatternMaker>(
    loading: &mut Loading,
    maker: &mut M,
    file: u32,
    line: u32,
    rules: &[Pair],
) -> Result<(), LoadError>
    ensures ran { (texts : List Fetch) → Ran (spec.makes_rules file line rules.now) (state_of loading.old) (kept texts (M.calls maker.old)) (kept texts (M.calls maker.new)) result (state_of loading.new) }
    ensures patterns { OnOk result (loading.new.built.patterns ≡ loading.old.built.patterns ++ marks_of rules.now) }
    ensures blocks { OnOk result (loading.new.built.blocks ≡ loading.old.built.blocks) }
    ensures cause { Cause result 0 0 (M.refusals maker.old) (M.refusals maker.new) }
    ensures refusals { M.refusals maker.old ≤ M.refusals maker.new }
{
    for rule in rules {
        match make(loading, maker, file, line, true, text_of(rule)) {
            Ok(()) => {}
            Err(e) => return Err(e),
        }
    }
    Ok(())
}
