//! A setting.
ghost use Rattle.std.specs.Prelude.{◌≡◌, ◌≤◌, List, IfOk, OnOk, length};
ghost use Rattle.std.specs.Option.{option_copied};
ghost use Rattle.lt_world.specs.declared.texts.Fetch.{Fetch};
ghost use Rattle.settings.specs.Checking.{check};
ghost use Rattle.settings.specs.InForm.{IsTaken};
ghost use Rattle.conf_eval.specs.Answers.{Cause, Is, Ran, kept};
ghost use Rattle.conf_eval.specs.Kept.{look, state_of};
ghost use Rattle.conf_eval.specs.Load.{sets, set_with};
ghost use Rattle.conf_eval.specs.Settings as spec;
ghost use Rattle.conf_eval.specs.Sound.{AreOpen, Grows, IsMade};

use crate::LoadError;
use crate::blocks::{Blocks, innermost};
use crate::faults::stop;
use crate::halt::{Halt, Wrong};
use crate::loading::Loading;
use crate::making::make_rules;
use crate::scope::{Scope, value_in};
use crate::value::{joined, sum};
use conditions::PatternMaker;
use conf_parse::{MAX_NESTING, Term};
use conf_value::{Pair, Setting, Value, Warning};
use lt_bytes::{List, NoMemory, Text};
use settings::{Key, KeyCheck, check_value, is_rule_list, key_of};
use std::alloc::Global;

/// The key that a word names: one key of `mod_rewrite` has two names.
fn key_named(word: &[u8]) -> &[u8]
    ensures { result.now ≡ spec.key_of word.now }
{
    if word == b"url.rewrite".as_slice() {
        b"url.rewrite-once"
    } else {
        word
    }
}

// The value with the one before, where there is one.
fn appended(alloc: Global, before: Option<&Value>, value: Value) -> Result<Value, Halt>
    ensures { Is (spec.appended (option_copied before.entry) value) result }
{
    match before {
        Some(before) => joined(alloc, before.copy(alloc)?, value),
        None => Ok(value),
    }
}

fn assigned(
    alloc: Global,
    add: bool,
    scope: &Scope<'_>,
    key: &[u8],
    value: Value,
) -> Result<Value, Halt>
    ensures { Is (spec.assigned add (look scope.now key.now) value) result }
{
    if !add {
        return Ok(value);
    }
    appended(alloc, value_in(scope, key), value)
}

// Whether the key counts in the global block alone.
fn is_global(key: &[u8]) -> bool
    ensures { result ≡ spec.is_global key.now }
{
    match key_of(key) {
        Some(key) => key.is_global(),
        None => false,
    }
}

// Whether the key is one of gateways, which aren't served yet.
fn is_unserved(key: &[u8]) -> bool
    ensures { result ≡ spec.is_unserved key.now }
{
    match key_of(key) {
        Some(Key::FastcgiServer) => true,
        Some(Key::FastcgiBalance) => true,
        Some(Key::ProxyServer) => true,
        Some(Key::ProxyBalance) => true,
        _ => false,
    }
}

// Whether a key with this value gives a warning in the block with this number.
fn warns(check: KeyCheck, key: &[u8], block: u32) -> Result<bool, Halt>
    ensures warns { Is (spec.warns check key.now block) result }
    ensures taken { OnOk result (IsTaken check) }
{
    match check {
        KeyCheck::Known => Ok(is_unserved(key) || (is_global(key) && block != 0)),
        KeyCheck::Partly => Ok(true),
        KeyCheck::Unknown => Ok(!key.starts_with(b"var.")),
        KeyCheck::WrongType => Err(Halt::Wrong(Wrong::WrongType)),
        KeyCheck::BadValue => Err(Halt::Wrong(Wrong::BadValue)),
    }
}

// The value that a key gets, and whether it gives a warning: `=` may not name a key that the block has set; the value
// is taken, then joined, then checked.
fn settled(
    alloc: Global,
    add: bool,
    scope: &Scope<'_>,
    key: &[u8],
    terms: &[Term],
) -> Result<(Value, bool), Halt>
    ensures settled { Is (spec.settled scope.now.scopes.now scope.now.built.now.blocks key.now add terms.now) result }
    ensures taken { IfOk result (λ p. IsTaken (check key.now p.0)) }
{
    if !add && scope.built.get(innermost(scope.scopes), key).is_some() {
        return Err(Halt::Wrong(Wrong::Duplicate));
    }
    checked(alloc, add, scope, key, terms)
}

fn checked(
    alloc: Global,
    add: bool,
    scope: &Scope<'_>,
    key: &[u8],
    terms: &[Term],
) -> Result<(Value, bool), Halt>
    ensures checked { Is (spec.checked scope.now.scopes.now scope.now.built.now.blocks key.now add terms.now) result }
    ensures taken { IfOk result (λ p. IsTaken (check key.now p.0)) }
{
    match sum(alloc, MAX_NESTING, scope, terms) {
        Ok(sum) => with_sum(alloc, add, scope, key, sum),
        Err(halt) => Err(halt),
    }
}

fn with_sum(
    alloc: Global,
    add: bool,
    scope: &Scope<'_>,
    key: &[u8],
    sum: Value,
) -> Result<(Value, bool), Halt>
    ensures checked { Is (spec.with_sum scope.now.scopes.now scope.now.built.now.blocks key.now add sum) result }
    ensures taken { IfOk result (λ p. IsTaken (check key.now p.0)) }
{
    match assigned(alloc, add, scope, key, sum) {
        Ok(value) => with_check(key, innermost(scope.scopes), value),
        Err(halt) => Err(halt),
    }
}

fn with_check(key: &[u8], block: u32, value: Value) -> Result<(Value, bool), Halt>
    ensures checked { Is (spec.with_check key.now block value) result }
    ensures taken { IfOk result (λ p. IsTaken (check key.now p.0)) }
{
    match warns(check_value(key, &value), key, block) {
        Ok(warned) => Ok((value, warned)),
        Err(halt) => Err(halt),
    }
}

// The rules of a value of this key.
fn rules_of<'v>(key: &[u8], value: &'v Value) -> &'v [Pair]
    ensures { result.now ≡ spec.rules_of key.now value.now }
{
    if !is_rule_list(key) {
        return &[];
    }
    match value {
        Value::Array(pairs) => pairs.as_slice(),
        Value::Text(_) => &[],
        Value::Number(_) => &[],
    }
}

// The number of the first pattern of a setting, where so many were made before.
fn first_of(key: &[u8], built: &Blocks) -> u32
    ensures { result ≡ spec.first_of key.now (length built.now.patterns) }
{
    if is_rule_list(key) {
        built.patterns() as u32
    } else {
        0
    }
}

// Keeps a warning, if there is one.
fn warn(
    alloc: Global,
    warnings: &mut List<Warning>,
    warned: bool,
    key: &[u8],
    file: u32,
    line: u32,
) -> Result<(), NoMemory>
    ensures { OnOk result (warnings.new ≡ spec.with_warning warned (spec.warning key.now file line) warnings.old) }
{
    if !warned {
        return Ok(());
    }
    let key = Text::from_bytes(alloc, key)?;
    warnings.push(Warning { key, file, line })
}

/// A setting of the innermost of these blocks.
pub fn set<M: PatternMaker>(
    loading: &mut Loading,
    maker: &mut M,
    file: u32,
    line: u32,
    scopes: &[u32],
    word: &[u8],
    add: bool,
    terms: &[Term],
) -> Result<(), LoadError>
    requires scopes { AreOpen scopes.now loading.old.built.blocks }
    ensures ran { (texts : List Fetch) → Ran (sets file line scopes.now word.now add terms.now) (state_of loading.old) (kept texts (M.calls maker.old)) (kept texts (M.calls maker.new)) result (state_of loading.new) }
    ensures grows { OnOk result (Grows loading.old.built.blocks loading.new.built.blocks) }
    ensures cause { Cause result 0 0 (M.refusals maker.old) (M.refusals maker.new) }
    ensures refusals { M.refusals maker.old ≤ M.refusals maker.new }
{
    let key = key_named(word);
    let scope = Scope {
        built: &loading.built,
        scopes,
    };
    match settled(loading.alloc, add, &scope, key, terms) {
        Ok((value, warned)) => keep(loading, maker, file, line, scopes, key, value, warned),
        Err(halt) => Err(stop(halt, file, line)),
    }
}

// The patterns of its rules are made, and it is kept.
fn keep<M: PatternMaker>(
    loading: &mut Loading,
    maker: &mut M,
    file: u32,
    line: u32,
    scopes: &[u32],
    key: &[u8],
    value: Value,
    warned: bool,
) -> Result<(), LoadError>
    requires scopes { AreOpen scopes.now loading.old.built.blocks }
    requires taken { IsTaken (check key.now value) }
    ensures ran { (texts : List Fetch) → Ran (set_with file line scopes.now key.now value warned) (state_of loading.old) (kept texts (M.calls maker.old)) (kept texts (M.calls maker.new)) result (state_of loading.new) }
    ensures grows { OnOk result (Grows loading.old.built.blocks loading.new.built.blocks) }
    ensures cause { Cause result 0 0 (M.refusals maker.old) (M.refusals maker.new) }
    ensures refusals { M.refusals maker.old ≤ M.refusals maker.new }
{
    let first_pattern = first_of(key, &loading.built);
    match make_rules(loading, maker, file, line, rules_of(key, &value)) {
        Ok(()) => match put(
            loading,
            file,
            line,
            scopes,
            key,
            value,
            first_pattern,
            warned,
        ) {
            Ok(()) => Ok(()),
            Err(_) => Err(LoadError::NoMemory),
        },
        Err(e) => Err(e),
    }
}

// Sets a key, with its warning if it gives one.
fn put(
    loading: &mut Loading,
    file: u32,
    line: u32,
    scopes: &[u32],
    key: &[u8],
    value: Value,
    first_pattern: u32,
    warned: bool,
) -> Result<(), NoMemory>
    requires scopes { AreOpen scopes.now loading.old.built.blocks }
    requires taken { IsTaken (check key.now value) }
    requires made { IsMade loading.old.built.patterns (spec.setting key.now value first_pattern) }
    ensures put { OnOk result (state_of loading.new ≡ spec.keeps file line (spec.innermost scopes.now) (spec.setting key.now value first_pattern) warned (state_of loading.old)) }
    ensures grows { OnOk result (Grows loading.old.built.blocks loading.new.built.blocks) }
{
    let alloc = loading.alloc;
    let name = Text::from_bytes(alloc, key)?;
    warn(alloc, &mut loading.warnings, warned, key, file, line)?;
    loading.built.set(
        scopes,
        Setting {
            key: name,
            value,
            first_pattern,
        },
    )
}
