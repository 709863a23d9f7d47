//! The configuration, out of the texts that it is spelled by.
ghost use Rattle.std.specs.Prelude.{◌≡◌, ◌≤◌, IfOk};
ghost use Rattle.settings.specs.InForm.{IsInForm};
ghost use Rattle.conf_eval.specs.Patterns.{ArePatterns};
ghost use Rattle.conf_eval.specs.declared.fault.Loaded.{Loaded};
ghost use Rattle.lt_commands.specs.Loading.{HasConf, IsOnlyConf, LoadCause, LoadSays, LoadsAs};
ghost use Rattle.conf_eval.specs.Answers.{kept};

use crate::status::Status;
use conditions::PatternMaker;
use conf_eval::{LoadError, Loaded, load};
use lt_world::Texts;
use std::alloc::Global;

/// The number of the configuration among the named texts.
pub const CONF: u32 = 1;

/// Loads the configuration whose text has this name, with the texts that it includes and the patterns that it names; or
/// answers the status with which the call ends.
pub fn load_conf<X: Texts, M: PatternMaker>(
    alloc: Global,
    name: &str,
    texts: &mut X,
    maker: &mut M,
) -> Result<Loaded, Status>
    ensures says { X.tells → LoadSays result (X.texts texts.old) name.now }
    ensures only { X.tells → (loaded : Loaded) → HasConf (X.texts texts.old) name.now loaded → IsOnlyConf loaded result }
    ensures asks { X.tells → LoadsAs result name.now (X.texts texts.old) (kept (X.calls texts.old) (M.calls maker.old)) (kept (X.calls texts.new) (M.calls maker.new)) }
    ensures in_form { IfOk result (λ loaded. IsInForm loaded.config) }
    ensures patterns { IfOk result (λ loaded. ArePatterns loaded.config.blocks loaded.patterns) }
    ensures cause { LoadCause result (X.faults texts.old) (X.faults texts.new) (M.refusals maker.old) (M.refusals maker.new) }
    ensures texts { X.tells → X.texts texts.new ≡ X.texts texts.old }
    ensures faults { X.faults texts.old ≤ X.faults texts.new }
    ensures refusals { M.refusals maker.old ≤ M.refusals maker.new }
{
    match load(alloc, name.as_bytes(), texts, maker) {
        Ok(loaded) => Ok(loaded),
        Err(LoadError::Conf(fault)) => Err(Status::Conf(fault)),
        Err(LoadError::RootMissing) => Err(Status::Missing { text: CONF }),
        Err(LoadError::RootFailed) => Err(Status::TextFault),
        Err(LoadError::NoMemory) => Err(Status::NoMemory),
    }
}
