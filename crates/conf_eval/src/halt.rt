//! What ends a statement before its end.
ghost use Rattle.std.specs.Prelude.{◌≡◌};
ghost use Rattle.conf_eval.specs.Faults.{kind_of};

use crate::ConfKind;
use lt_bytes::NoMemory;

/// What can be wrong with a statement by itself, whatever the texts answer.
#[derive(Clone, Copy, Debug, PartialEq, Eq)]
pub enum Wrong {
    Duplicate,
    UnknownVariable,
    Mixed,
    Overflow,
    WrongType,
    BadValue,
    Deep,
}

impl Wrong {
    pub fn kind(self) -> ConfKind
        ensures { result ≡ kind_of self }
    {
        match self {
            Wrong::Duplicate => ConfKind::Duplicate,
            Wrong::UnknownVariable => ConfKind::UnknownVariable,
            Wrong::Mixed => ConfKind::Mixed,
            Wrong::Overflow => ConfKind::Overflow,
            Wrong::WrongType => ConfKind::WrongType,
            Wrong::BadValue => ConfKind::BadValue,
            Wrong::Deep => ConfKind::Deep,
        }
    }
}

/// Why a statement was not carried out.
#[derive(Clone, Copy, Debug, PartialEq, Eq)]
pub enum Halt {
    Wrong(Wrong),
    NoMemory,
}

impl From<NoMemory> for Halt {
    ghost use Rattle.std.specs.Prelude.{◌≡◌};
    ghost use Rattle.conf_eval.specs.declared.halt.Halt.TheVariants as the;

    ghost from_gives = { λ _ e. e ≡ the.NoMemory };

    fn from(_: NoMemory) -> Halt {
        Halt::NoMemory
    }
}
