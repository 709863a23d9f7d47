//! Statements, the blocks that they open, and the texts that they include.
ghost use Rattle.std.specs.Prelude.{◌≡◌, ◌≤◌, ◌++◌, ◌∷◌, None, IfOk, OnOk, length};
ghost use Rattle.conf_value.specs.declared.value.Value.{out-Value};
ghost use Rattle.conf_parse.specs.declared.tree.Branch.{out-Branch};
ghost use Rattle.conf_eval.specs.Answers.{Cause, Is, Ran, kept};
ghost use Rattle.conf_eval.specs.Kept.{look, state_of};
ghost use Rattle.conf_eval.specs.Load as spec;
ghost use Rattle.conf_eval.specs.Opening.{behind_it};
ghost use Rattle.conf_eval.specs.Sound.{AreOpen, Grows, StandsBehind};

use crate::faults::{fault, stop};
use crate::halt::{Halt, Wrong};
use crate::loading::Loading;
use crate::opening::open_block;
use crate::scope::Scope;
use crate::setting::set;
use crate::tree::{TreeError, tree};
use crate::value::sum;
use crate::{ConfKind, LoadError};
use conditions::PatternMaker;
use conf_parse::{Branch, MAX_NESTING, RawCondition, Statement, Term, What};
use conf_value::Value;
use lt_bytes::{NoMemory, Text};
use lt_world::{Fetched, Texts};
use std::alloc::Global;

// The name of an include.
fn name_of(alloc: Global, scope: &Scope<'_>, terms: &[Term]) -> Result<Text, Halt>
    ensures { Is (spec.name_by (look scope.now) terms.now) result }
{
    match sum(alloc, MAX_NESTING, scope, terms) {
        Ok(value) => text_of(value),
        Err(halt) => Err(halt),
    }
}

fn text_of(value: Value) -> Result<Text, Halt>
    ensures { Is (spec.text_of (out-Value value)) result }
{
    match value {
        Value::Text(name) => Ok(name),
        Value::Number(_) => Err(Halt::Wrong(Wrong::WrongType)),
        Value::Array(_) => Err(Halt::Wrong(Wrong::WrongType)),
    }
}

// The blocks around a statement of the block with this number, which stands in these.
fn inside(alloc: Global, block: u32, scopes: &[u32]) -> Result<Vec<u32>, NoMemory>
    ensures { IfOk result (λ inner. inner.items ≡ block ∷ scopes.now) }
{
    let mut inner = Vec::new(alloc);
    if inner.push(block).is_err() {
        return Err(NoMemory);
    }
    match inner.extend_from_slice(scopes) {
        Ok(()) => Ok(inner),
        Err(_) => Err(NoMemory),
    }
}

// The branch that the next one of a chain stands behind.
fn behind_it(condition: &Option<RawCondition>, block: u32) -> Option<u32>
    ensures { result ≡ behind_it condition.now block }
{
    match condition {
        Some(_) => Some(block),
        None => None,
    }
}

/// The statements of a text that was fetched, in which so many includes may be nested.
#[cycle(load)]
pub fn text<X: Texts, M: PatternMaker>(
    loading: &mut Loading,
    texts: &mut X,
    maker: &mut M,
    depth: u32,
    scopes: &[u32],
    bytes: &[u8],
) -> Result<(), LoadError>
    requires scopes { AreOpen scopes.now loading.old.built.blocks }
    ensures same { X.tells → X.texts texts.new ≡ X.texts texts.old }
    ensures ran { X.tells → Ran (spec.text (X.texts texts.old) depth scopes.now bytes.now) (state_of loading.old) (kept (X.calls texts.old) (M.calls maker.old)) (kept (X.calls texts.new) (M.calls maker.new)) result (state_of loading.new) }
    ensures grows { OnOk result (Grows loading.old.built.blocks loading.new.built.blocks) }
    ensures cause { Cause result (X.faults texts.old) (X.faults texts.new) (M.refusals maker.old) (M.refusals maker.new) }
    ensures faults { X.faults texts.old ≤ X.faults texts.new }
    ensures refusals { M.refusals maker.old ≤ M.refusals maker.new }
{
    let file = loading.files;
    loading.files = file.saturating_add(1);
    loading.room = loading.room.saturating_sub(bytes.len() as u64);
    match tree(loading.alloc, bytes) {
        Ok(tree) => statements(
            loading,
            texts,
            maker,
            depth,
            MAX_NESTING,
            file,
            scopes,
            tree.statements.as_slice(),
        ),
        Err(TreeError::Fault { kind, line }) => Err(fault(kind, file, line)),
        Err(TreeError::NoMemory) => Err(LoadError::NoMemory),
    }
}

#[cycle(load)]
fn statements<X: Texts, M: PatternMaker>(
    loading: &mut Loading,
    texts: &mut X,
    maker: &mut M,
    depth: u32,
    room: u32,
    file: u32,
    scopes: &[u32],
    statements: &[Statement],
) -> Result<(), LoadError>
    requires scopes { AreOpen scopes.now loading.old.built.blocks }
    ensures same { X.tells → X.texts texts.new ≡ X.texts texts.old }
    ensures ran { X.tells → Ran (spec.statements (X.texts texts.old) depth room file scopes.now statements.now) (state_of loading.old) (kept (X.calls texts.old) (M.calls maker.old)) (kept (X.calls texts.new) (M.calls maker.new)) result (state_of loading.new) }
    ensures grows { OnOk result (Grows loading.old.built.blocks loading.new.built.blocks) }
    ensures cause { Cause result (X.faults texts.old) (X.faults texts.new) (M.refusals maker.old) (M.refusals maker.new) }
    ensures faults { X.faults texts.old ≤ X.faults texts.new }
    ensures refusals { M.refusals maker.old ≤ M.refusals maker.new }
{
    for one in statements {
        match statement(loading, texts, maker, depth, room, file, scopes, one) {
            Ok(()) => {}
            Err(e) => return Err(e),
        }
    }
    Ok(())
}

#[cycle(load)]
fn statement<X: Texts, M: PatternMaker>(
    loading: &mut Loading,
    texts: &mut X,
    maker: &mut M,
    depth: u32,
    room: u32,
    file: u32,
    scopes: &[u32],
    statement: &Statement,
) -> Result<(), LoadError>
    requires scopes { AreOpen scopes.now loading.old.built.blocks }
    ensures same { X.tells → X.texts texts.new ≡ X.texts texts.old }
    ensures ran { X.tells → Ran (spec.statement (X.texts texts.old) depth room file scopes.now statement.now) (state_of loading.old) (kept (X.calls texts.old) (M.calls maker.old)) (kept (X.calls texts.new) (M.calls maker.new)) result (state_of loading.new) }
    ensures grows { OnOk result (Grows loading.old.built.blocks loading.new.built.blocks) }
    ensures cause { Cause result (X.faults texts.old) (X.faults texts.new) (M.refusals maker.old) (M.refusals maker.new) }
    ensures faults { X.faults texts.old ≤ X.faults texts.new }
    ensures refusals { M.refusals maker.old ≤ M.refusals maker.new }
{
    let line = statement.line;
    match &statement.what {
        What::Set { key, add, value } => set(
            loading,
            maker,
            file,
            line,
            scopes,
            key.bytes(),
            *add,
            value.as_slice(),
        ),
        What::Include(terms) => include_value(
            loading,
            texts,
            maker,
            depth,
            file,
            line,
            scopes,
            terms.as_slice(),
        ),
        What::Branches(all) => chain(
            loading,
            texts,
            maker,
            depth,
            room,
            file,
            line,
            scopes,
            all.as_slice(),
        ),
    }
}

// A chain of blocks, in which so many may be nested.
#[cycle(load)]
fn chain<X: Texts, M: PatternMaker>(
    loading: &mut Loading,
    texts: &mut X,
    maker: &mut M,
    depth: u32,
    room: u32,
    file: u32,
    line: u32,
    scopes: &[u32],
    all: &[Branch],
) -> Result<(), LoadError>
    requires scopes { AreOpen scopes.now loading.old.built.blocks }
    ensures same { X.tells → X.texts texts.new ≡ X.texts texts.old }
    ensures ran { X.tells → Ran (spec.chain (X.texts texts.old) (spec.include (X.texts texts.old) depth) room file line scopes.now all.now) (state_of loading.old) (kept (X.calls texts.old) (M.calls maker.old)) (kept (X.calls texts.new) (M.calls maker.new)) result (state_of loading.new) }
    ensures grows { OnOk result (Grows loading.old.built.blocks loading.new.built.blocks) }
    ensures cause { Cause result (X.faults texts.old) (X.faults texts.new) (M.refusals maker.old) (M.refusals maker.new) }
    ensures faults { X.faults texts.old ≤ X.faults texts.new }
    ensures refusals { M.refusals maker.old ≤ M.refusals maker.new }
{
    if room == 0 {
        return Err(fault(ConfKind::Deep, file, line));
    }
    branches(loading, texts, maker, depth, room - 1, file, scopes, all)
}

#[cycle(load)]
fn branches<X: Texts, M: PatternMaker>(
    loading: &mut Loading,
    texts: &mut X,
    maker: &mut M,
    depth: u32,
    room: u32,
    file: u32,
    scopes: &[u32],
    all: &[Branch],
) -> Result<(), LoadError>
    requires scopes { AreOpen scopes.now loading.old.built.blocks }
    ensures same { X.tells → X.texts texts.new ≡ X.texts texts.old }
    ensures ran { X.tells → Ran (spec.branches (X.texts texts.old) depth room file scopes.now None all.now) (state_of loading.old) (kept (X.calls texts.old) (M.calls maker.old)) (kept (X.calls texts.new) (M.calls maker.new)) result (state_of loading.new) }
    ensures grows { OnOk result (Grows loading.old.built.blocks loading.new.built.blocks) }
    ensures cause { Cause result (X.faults texts.old) (X.faults texts.new) (M.refusals maker.old) (M.refusals maker.new) }
    ensures faults { X.faults texts.old ≤ X.faults texts.new }
    ensures refusals { M.refusals maker.old ≤ M.refusals maker.new }
{
    let mut behind = None;
    for one in all {
        let block = loading.built.len() as u32;
        match branch(
            loading, texts, maker, depth, room, file, scopes, behind, one,
        ) {
            Ok(()) => {}
            Err(e) => return Err(e),
        }
        behind = behind_it(&one.condition, block);
    }
    Ok(())
}

// A block opens, and its statements are carried out in it.
#[cycle(load)]
fn branch<X: Texts, M: PatternMaker>(
    loading: &mut Loading,
    texts: &mut X,
    maker: &mut M,
    depth: u32,
    room: u32,
    file: u32,
    scopes: &[u32],
    behind: Option<u32>,
    branch: &Branch,
) -> Result<(), LoadError>
    requires behind { StandsBehind behind scopes.now loading.old.built.blocks }
    requires scopes { AreOpen scopes.now loading.old.built.blocks }
    ensures same { X.tells → X.texts texts.new ≡ X.texts texts.old }
    ensures ran { X.tells → Ran (spec.branch (X.texts texts.old) depth room file scopes.now behind branch.now) (state_of loading.old) (kept (X.calls texts.old) (M.calls maker.old)) (kept (X.calls texts.new) (M.calls maker.new)) result (state_of loading.new) }
    ensures grows { OnOk result (Grows loading.old.built.blocks loading.new.built.blocks) }
    ensures cause { Cause result (X.faults texts.old) (X.faults texts.new) (M.refusals maker.old) (M.refusals maker.new) }
    ensures faults { X.faults texts.old ≤ X.faults texts.new }
    ensures refusals { M.refusals maker.old ≤ M.refusals maker.new }
    ensures branch { OnOk result (StandsBehind (behind_it (out-Branch branch.now).condition (length loading.old.built.blocks)) scopes.now loading.new.built.blocks) }
{
    let block = loading.built.len() as u32;
    let Ok(inner) = inside(loading.alloc, block, scopes) else {
        return Err(LoadError::NoMemory);
    };
    match open_block(
        loading,
        maker,
        file,
        branch.line,
        scopes,
        behind,
        &branch.condition,
    ) {
        Ok(()) => statements(
            loading,
            texts,
            maker,
            depth,
            room,
            file,
            inner.as_slice(),
            branch.body.as_slice(),
        ),
        Err(e) => Err(e),
    }
}

#[cycle(load)]
fn include_value<X: Texts, M: PatternMaker>(
    loading: &mut Loading,
    texts: &mut X,
    maker: &mut M,
    depth: u32,
    file: u32,
    line: u32,
    scopes: &[u32],
    terms: &[Term],
) -> Result<(), LoadError>
    requires scopes { AreOpen scopes.now loading.old.built.blocks }
    ensures same { X.tells → X.texts texts.new ≡ X.texts texts.old }
    ensures ran { X.tells → Ran (spec.include_of (X.texts texts.old) depth file line scopes.now terms.now) (state_of loading.old) (kept (X.calls texts.old) (M.calls maker.old)) (kept (X.calls texts.new) (M.calls maker.new)) result (state_of loading.new) }
    ensures grows { OnOk result (Grows loading.old.built.blocks loading.new.built.blocks) }
    ensures cause { Cause result (X.faults texts.old) (X.faults texts.new) (M.refusals maker.old) (M.refusals maker.new) }
    ensures faults { X.faults texts.old ≤ X.faults texts.new }
    ensures refusals { M.refusals maker.old ≤ M.refusals maker.new }
{
    let scope = Scope {
        built: &loading.built,
        scopes,
    };
    match name_of(loading.alloc, &scope, terms) {
        Ok(name) => include(
            loading,
            texts,
            maker,
            depth,
            file,
            line,
            scopes,
            name.bytes(),
        ),
        Err(halt) => Err(stop(halt, file, line)),
    }
}

#[cycle(load)]
fn include<X: Texts, M: PatternMaker>(
    loading: &mut Loading,
    texts: &mut X,
    maker: &mut M,
    depth: u32,
    file: u32,
    line: u32,
    scopes: &[u32],
    name: &[u8],
) -> Result<(), LoadError>
    requires scopes { AreOpen scopes.now loading.old.built.blocks }
    ensures same { X.tells → X.texts texts.new ≡ X.texts texts.old }
    ensures ran { X.tells → Ran (spec.include (X.texts texts.old) depth file line scopes.now name.now) (state_of loading.old) (kept (X.calls texts.old) (M.calls maker.old)) (kept (X.calls texts.new) (M.calls maker.new)) result (state_of loading.new) }
    ensures grows { OnOk result (Grows loading.old.built.blocks loading.new.built.blocks) }
    ensures cause { Cause result (X.faults texts.old) (X.faults texts.new) (M.refusals maker.old) (M.refusals maker.new) }
    ensures faults { X.faults texts.old ≤ X.faults texts.new }
    ensures refusals { M.refusals maker.old ≤ M.refusals maker.new }
{
    if depth == 0 {
        return Err(fault(ConfKind::IncludeDeep, file, line));
    }
    match texts.fetch(name, loading.room) {
        Fetched::Text(found) => text(loading, texts, maker, depth - 1, scopes, found.bytes()),
        Fetched::Missing => Err(fault(ConfKind::IncludeMissing, file, line)),
        Fetched::Long => Err(fault(ConfKind::TooLong, file, line)),
        Fetched::Failed => Err(fault(ConfKind::TextFault, file, line)),
        Fetched::NoMemory => Err(LoadError::NoMemory),
    }
}
