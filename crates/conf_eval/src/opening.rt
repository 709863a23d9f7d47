//! How a block opens.
ghost use Rattle.std.specs.Prelude.{◌≡◌, ◌≤◌, ◌<◌, ◌++◌, [], ◌∷◌, ℕ, List, None, Some, false, OnOk, length};
ghost use Rattle.std.specs.Option.{IsSome};
ghost use Rattle.lt_world.specs.declared.texts.Fetch.{Fetch};
ghost use Rattle.conditions.specs.Comparing.{tries_pattern};
ghost use Rattle.conditions.specs.Fields.{field_of};
ghost use Rattle.conf_eval.specs.Answers.{Cause, Ran, kept};
ghost use Rattle.conf_eval.specs.Calls.{Calls};
ghost use Rattle.conf_eval.specs.Kept.{state_of};
ghost use Rattle.conf_eval.specs.Opening as spec;
ghost use Rattle.conf_eval.specs.Sound.{AreOpen, Grows, HasOwn, Opens, StandsBehind};

use crate::faults::fault;
use crate::limits::MAX_BLOCKS;
use crate::loading::Loading;
use crate::making::make;
use crate::{ConfKind, LoadError};
use conditions::{PatternMaker, field_of, is_network};
use conf_parse::RawCondition;
use conf_value::{Condition, Field, Op};
use lt_bytes::Text;

// Whether no block may open any more.
fn is_full(loading: &Loading) -> bool
    ensures { result ≡ spec.is_full (state_of loading.now) }
{
    loading.built.len() > MAX_BLOCKS
}

// Whether the text is to be a network, and is none.
fn lacks_network(field: &Field, op: Op, text: &[u8]) -> bool
    ensures { result ≡ spec.lacks_network field.now op text.now }
{
    match field {
        Field::RemoteIp => match op {
            Op::Equal => !is_network(text),
            Op::NotEqual => !is_network(text),
            _ => false,
        },
        _ => false,
    }
}

// Whether a condition with this operator tries a pattern.
fn tries_pattern(op: Op) -> bool
    ensures { result ≡ tries_pattern op }
{
    match op {
        Op::Match => true,
        Op::NoMatch => true,
        _ => false,
    }
}

// The block opens.
fn open(
    loading: &mut Loading,
    scopes: &[u32],
    behind: Option<u32>,
    condition: Option<Condition>,
) -> Result<(), LoadError>
    requires scopes { AreOpen scopes.now loading.old.built.blocks }
    requires behind { StandsBehind behind scopes.now loading.old.built.blocks }
    requires condition { HasOwn loading.old.built.patterns condition }
    requires bare { condition ≡ None → IsSome behind }
    requires few { length loading.old.built.blocks < 1025 }
    ensures ran { (calls : Calls) → Ran (spec.opens_with scopes.now behind condition) (state_of loading.old) calls calls result (state_of loading.new) }
    ensures opens { OnOk result (loading.new.built.blocks ≡ loading.old.built.blocks ++ spec.block scopes.now behind condition ∷ []) }
    ensures cause { (a b : ℕ) → Cause result 0 0 a b }
{
    match loading.built.open(scopes, behind, condition) {
        Ok(()) => Ok(()),
        Err(_) => Err(LoadError::NoMemory),
    }
}

// A bare `else` opens behind this branch.
fn open_else(
    loading: &mut Loading,
    file: u32,
    line: u32,
    scopes: &[u32],
    behind: u32,
) -> Result<(), LoadError>
    requires scopes { AreOpen scopes.now loading.old.built.blocks }
    requires behind { StandsBehind (Some behind) scopes.now loading.old.built.blocks }
    ensures ran { (calls : Calls) → Ran (spec.opens_bare file line scopes.now (Some behind)) (state_of loading.old) calls calls result (state_of loading.new) }
    ensures opens { OnOk result (loading.new.built.blocks ≡ loading.old.built.blocks ++ spec.block scopes.now (Some behind) None ∷ []) }
    ensures cause { (a b : ℕ) → Cause result 0 0 a b }
{
    if is_full(loading) {
        return Err(fault(ConfKind::TooMany, file, line));
    }
    open(loading, scopes, Some(behind), None)
}

// A bare `else` opens, which stands behind another branch.
fn open_bare(
    loading: &mut Loading,
    file: u32,
    line: u32,
    scopes: &[u32],
    behind: Option<u32>,
) -> Result<(), LoadError>
    requires scopes { AreOpen scopes.now loading.old.built.blocks }
    requires behind { StandsBehind behind scopes.now loading.old.built.blocks }
    ensures ran { (calls : Calls) → Ran (spec.opens_bare file line scopes.now behind) (state_of loading.old) calls calls result (state_of loading.new) }
    ensures opens { OnOk result (loading.new.built.blocks ≡ loading.old.built.blocks ++ spec.block scopes.now behind None ∷ []) }
    ensures cause { (a b : ℕ) → Cause result 0 0 a b }
{
    match behind {
        Some(number) => open_else(loading, file, line, scopes, number),
        None => Err(fault(ConfKind::Grammar, file, line)),
    }
}

// A branch with a condition on this field opens.
fn open_field<M: PatternMaker>(
    loading: &mut Loading,
    maker: &mut M,
    file: u32,
    line: u32,
    scopes: &[u32],
    behind: Option<u32>,
    raw: &RawCondition,
    field: Field,
) -> Result<(), LoadError>
    requires scopes { AreOpen scopes.now loading.old.built.blocks }
    requires behind { StandsBehind behind scopes.now loading.old.built.blocks }
    ensures ran { (texts : List Fetch) → Ran (spec.opens_on file line scopes.now behind raw.now (Some field)) (state_of loading.old) (kept texts (M.calls maker.old)) (kept texts (M.calls maker.new)) result (state_of loading.new) }
    ensures opens { OnOk result (Opens loading.old.built.blocks scopes.now loading.new.built.blocks) }
    ensures cause { Cause result 0 0 (M.refusals maker.old) (M.refusals maker.new) }
    ensures refusals { M.refusals maker.old ≤ M.refusals maker.new }
{
    if is_full(loading) {
        return Err(fault(ConfKind::TooMany, file, line));
    }
    if lacks_network(&field, raw.op, raw.text.bytes()) {
        return Err(fault(ConfKind::BadValue, file, line));
    }
    open_good(loading, maker, file, line, scopes, behind, raw, field)
}

// The same, where nothing is wrong but maybe its pattern.
fn open_good<M: PatternMaker>(
    loading: &mut Loading,
    maker: &mut M,
    file: u32,
    line: u32,
    scopes: &[u32],
    behind: Option<u32>,
    raw: &RawCondition,
    field: Field,
) -> Result<(), LoadError>
    requires scopes { AreOpen scopes.now loading.old.built.blocks }
    requires behind { StandsBehind behind scopes.now loading.old.built.blocks }
    requires few { length loading.old.built.blocks < 1025 }
    requires network { spec.lacks_network field raw.now.op raw.now.text ≡ false }
    ensures ran { (texts : List Fetch) → Ran (spec.opens_by file line scopes.now behind raw.now field (tries_pattern raw.now.op)) (state_of loading.old) (kept texts (M.calls maker.old)) (kept texts (M.calls maker.new)) result (state_of loading.new) }
    ensures opens { OnOk result (Opens loading.old.built.blocks scopes.now loading.new.built.blocks) }
    ensures cause { Cause result 0 0 (M.refusals maker.old) (M.refusals maker.new) }
    ensures refusals { M.refusals maker.old ≤ M.refusals maker.new }
{
    let op = raw.op;
    let Ok(text) = Text::from_bytes(loading.alloc, raw.text.bytes()) else {
        return Err(LoadError::NoMemory);
    };
    if !tries_pattern(op) {
        return open(
            loading,
            scopes,
            behind,
            Some(condition(field, op, text, None)),
        );
    }
    let number = loading.built.patterns() as u32;
    match make(loading, maker, file, line, false, raw.text.bytes()) {
        Ok(()) => open(
            loading,
            scopes,
            behind,
            Some(condition(field, op, text, Some(number))),
        ),
        Err(e) => Err(e),
    }
}

fn condition(field: Field, op: Op, text: Text, pattern: Option<u32>) -> Condition
    ensures { result ≡ record { field = field; op = op; text = text; pattern = pattern } }
{
    Condition {
        field,
        op,
        text,
        pattern,
    }
}

// A branch with a condition opens.
fn open_on<M: PatternMaker>(
    loading: &mut Loading,
    maker: &mut M,
    file: u32,
    line: u32,
    scopes: &[u32],
    behind: Option<u32>,
    raw: &RawCondition,
) -> Result<(), LoadError>
    requires scopes { AreOpen scopes.now loading.old.built.blocks }
    requires behind { StandsBehind behind scopes.now loading.old.built.blocks }
    ensures ran { (texts : List Fetch) → Ran (spec.opens file line scopes.now behind (Some raw.now)) (state_of loading.old) (kept texts (M.calls maker.old)) (kept texts (M.calls maker.new)) result (state_of loading.new) }
    ensures opens { OnOk result (Opens loading.old.built.blocks scopes.now loading.new.built.blocks) }
    ensures cause { Cause result 0 0 (M.refusals maker.old) (M.refusals maker.new) }
    ensures refusals { M.refusals maker.old ≤ M.refusals maker.new }
{
    match field_of(loading.alloc, raw.group.bytes(), raw.name.bytes()) {
        Ok(Some(field)) => open_field(loading, maker, file, line, scopes, behind, raw, field),
        Ok(None) => Err(fault(ConfKind::UnknownField, file, line)),
        Err(_) => Err(LoadError::NoMemory),
    }
}

/// A block opens in these, behind this branch of its chain if there is one.
pub fn open_block<M: PatternMaker>(
    loading: &mut Loading,
    maker: &mut M,
    file: u32,
    line: u32,
    scopes: &[u32],
    behind: Option<u32>,
    condition: &Option<RawCondition>,
) -> Result<(), LoadError>
    requires scopes { AreOpen scopes.now loading.old.built.blocks }
    requires behind { StandsBehind behind scopes.now loading.old.built.blocks }
    ensures ran { (texts : List Fetch) → Ran (spec.opens file line scopes.now behind condition.now) (state_of loading.old) (kept texts (M.calls maker.old)) (kept texts (M.calls maker.new)) result (state_of loading.new) }
    ensures grows { OnOk result (Grows loading.old.built.blocks loading.new.built.blocks) }
    ensures opens { OnOk result (AreOpen (length loading.old.built.blocks ∷ scopes.now) loading.new.built.blocks) }
    ensures branch { OnOk result (StandsBehind (spec.behind_it condition.now (length loading.old.built.blocks)) scopes.now loading.new.built.blocks) }
    ensures cause { Cause result 0 0 (M.refusals maker.old) (M.refusals maker.new) }
    ensures refusals { M.refusals maker.old ≤ M.refusals maker.new }
{
    match condition {
        Some(raw) => open_on(loading, maker, file, line, scopes, behind, raw),
        None => open_bare(loading, file, line, scopes, behind),
    }
}
