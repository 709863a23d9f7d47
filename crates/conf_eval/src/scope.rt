//! Where a statement stands.
ghost use Rattle.std.specs.Prelude.{◌≡◌};
ghost use Rattle.std.specs.Option.{option_copied};
ghost use Rattle.conf_eval.specs.Kept.{look};

use crate::blocks::Blocks;
use conf_value::Value;

/// The blocks that a statement stands in, the innermost first, and what all blocks set so far.
#[derive(Clone, Copy)]
pub struct Scope<'s> {
    pub built: &'s Blocks,
    pub scopes: &'s [u32],
}

/// What a variable is set to.
pub fn value_in<'s>(scope: &Scope<'s>, key: &[u8]) -> Option<&'s Value>
    ensures { option_copied result ≡ look scope.now key.now }
{
    scope.built.find(scope.scopes, key)
}
