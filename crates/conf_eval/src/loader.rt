//! The whole configuration.
ghost use Rattle.std.specs.Prelude.{◌≡◌, ◌≤◌, ◌<◌, ◌^◌, ℕ, IfOk, IfErr};
ghost use Rattle.settings.specs.Indexed.{lists_of_all};
ghost use Rattle.settings.specs.InForm.{IsInForm};
ghost use Rattle.conf_eval.specs.Answers.{Cause, Closes, Loads, Ran, kept};
ghost use Rattle.conf_eval.specs.Kept.{state_of};
ghost use Rattle.conf_eval.specs.Load as spec;
ghost use Rattle.conf_eval.specs.Outcomes.{FirstSays};
ghost use Rattle.conf_eval.specs.Patterns.{ArePatterns};

use crate::blocks::Blocks;
use crate::faults::fault;
use crate::include::text;
use crate::limits::{MAX_INCLUDES, MAX_TEXTS};
use crate::loading::Loading;
use crate::{ConfKind, LoadError, Loaded};
use conditions::PatternMaker;
use conf_value::Config;
use lt_bytes::List;
use lt_world::{Fetched, Texts};
use settings::has_few_lists;
use std::alloc::Global;

/// Loads the configuration whose text has this name: its statements from the first, and those of the texts that it
/// includes at their places. The maker makes the patterns of its conditions and rules.
pub fn load<X: Texts, M: PatternMaker>(
    alloc: Global,
    name: &[u8],
    texts: &mut X,
    maker: &mut M,
) -> Result<Loaded, LoadError>
    ensures loads { X.tells → Loads (spec.load (X.texts texts.old) name.now) (kept (X.calls texts.old) (M.calls maker.old)) (kept (X.calls texts.new) (M.calls maker.new)) result }
    ensures first { X.tells → FirstSays result name.now (X.calls texts.old) (X.calls texts.new) }
    ensures in_form { IfOk result (λ loaded. IsInForm loaded.config) }
    ensures patterns { IfOk result (λ loaded. ArePatterns loaded.config.blocks loaded.patterns) }
    ensures same { X.tells → X.texts texts.new ≡ X.texts texts.old }
    ensures cause { Cause result (X.faults texts.old) (X.faults texts.new) (M.refusals maker.old) (M.refusals maker.new) }
    ensures faults { X.faults texts.old ≤ X.faults texts.new }
    ensures refusals { M.refusals maker.old ≤ M.refusals maker.new }
{
    let Ok(built) = Blocks::new(alloc) else {
        return Err(LoadError::NoMemory);
    };
    let mut loading = Loading {
        alloc,
        built,
        warnings: List::new(alloc),
        files: 0,
        room: MAX_TEXTS,
    };
    match root(&mut loading, texts, maker, name) {
        Ok(()) => finish(loading),
        Err(e) => Err(e),
    }
}

fn root<X: Texts, M: PatternMaker>(
    loading: &mut Loading,
    texts: &mut X,
    maker: &mut M,
    name: &[u8],
) -> Result<(), LoadError>
    requires { state_of loading.old ≡ spec.start }
    ensures same { X.tells → X.texts texts.new ≡ X.texts texts.old }
    ensures ran { X.tells → Ran (spec.root (X.texts texts.old) name.now) (state_of loading.old) (kept (X.calls texts.old) (M.calls maker.old)) (kept (X.calls texts.new) (M.calls maker.new)) result (state_of loading.new) }
    ensures first { X.tells → FirstSays result name.now (X.calls texts.old) (X.calls texts.new) }
    ensures cause { Cause result (X.faults texts.old) (X.faults texts.new) (M.refusals maker.old) (M.refusals maker.new) }
    ensures faults { X.faults texts.old ≤ X.faults texts.new }
    ensures refusals { M.refusals maker.old ≤ M.refusals maker.new }
{
    match texts.fetch(name, MAX_TEXTS) {
        Fetched::Text(found) => text(loading, texts, maker, MAX_INCLUDES, &[0], found.bytes()),
        Fetched::Missing => Err(LoadError::RootMissing),
        Fetched::Long => Err(fault(ConfKind::TooLong, 0, 1)),
        Fetched::Failed => Err(LoadError::RootFailed),
        Fetched::NoMemory => Err(LoadError::NoMemory),
    }
}

// The configuration that was loaded, unless it has no document root.
fn finish(loading: Loading) -> Result<Loaded, LoadError>
    ensures closes { Closes (state_of loading) result }
    ensures in_form { IfOk result (λ loaded. IsInForm loaded.config) }
    ensures patterns { IfOk result (λ loaded. ArePatterns loaded.config.blocks loaded.patterns) }
    ensures kind { (a b c d : ℕ) → Cause result a b c d }
{
    if loading.built.get(0, b"server.document-root").is_none() {
        return Err(fault(ConfKind::NoRoot, 0, 1));
    }
    let Loading {
        alloc: _,
        built,
        warnings,
        files: _,
        room: _,
    } = loading;
    match built.into_loaded(warnings) {
        Ok(loaded) => counted(loaded),
        Err(_) => Err(LoadError::NoMemory),
    }
}

// Lists of hosts have numbers of 32 bits. So many would take more memory than there is.
fn counted(loaded: Loaded) -> Result<Loaded, LoadError>
    requires form { lists_of_all loaded.config.blocks < 2 ^ 32 → IsInForm loaded.config }
    requires patterns { ArePatterns loaded.config.blocks loaded.patterns }
    ensures same { IfOk result (λ r. r ≡ loaded) }
    ensures in_form { IfOk result (λ r. IsInForm r.config) }
    ensures patterns { IfOk result (λ r. ArePatterns r.config.blocks r.patterns) }
    ensures err { IfErr result (λ e. e ≡ LoadError.NoMemory) }
{
    if has_few_lists(&loaded.config) {
        Ok(loaded)
    } else {
        Err(LoadError::NoMemory)
    }
}
