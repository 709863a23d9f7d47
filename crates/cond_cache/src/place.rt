//! What is kept of one block.
ghost use Rattle.std.specs.Prelude.{◌≡◌};
ghost use Rattle.cond_cache.specs.Kept.{groups_in, left_by, truth_in};

use conditions::Groups;
use conf_value::Truth;

/// What is kept of a block, and where its truth comes from.
#[derive(Drop)]
pub enum Place {
    /// It was not asked for since the attributes changed.
    Unasked,
    /// Its parent isn't True, or an earlier branch of its chain isn't False.
    Given(Truth),
    /// It has no condition, and nothing before it gave another truth: it is True.
    Bare,
    /// Its condition was compared. The groups are those of its match, where they can be asked for.
    Compared { truth: Truth, groups: Groups },
}

impl Place {
    /// The truth that is kept, if one is.
    pub(crate) fn truth(&self) -> Option<Truth>
        ensures { result ≡ truth_in self.now }
    {
        match self {
            Place::Unasked => None,
            Place::Given(truth) => Some(*truth),
            Place::Bare => Some(Truth::True),
            Place::Compared { truth, .. } => Some(*truth),
        }
    }

    /// What a branch and those before it leave to the branch behind it: the truth that it must have, if any.
    pub(crate) fn leaves(&self) -> Option<Truth>
        ensures { result ≡ left_by self.now }
    {
        match self {
            Place::Unasked => None,
            Place::Given(truth) => Some(*truth),
            Place::Bare => Some(Truth::False),
            Place::Compared { truth, .. } => match truth {
                Truth::True => Some(Truth::False),
                Truth::Unset => Some(Truth::Unset),
                Truth::False => None,
            },
        }
    }

    /// The groups that are kept, or else these.
    pub(crate) fn groups<'p>(&'p self, none: &'p Groups) -> &'p Groups
        ensures { result.now ≡ groups_in self.now none.now }
    {
        match self {
            Place::Unasked => none,
            Place::Given(_) => none,
            Place::Bare => none,
            Place::Compared { groups, .. } => groups,
        }
    }
}
