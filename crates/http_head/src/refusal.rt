//! Why a request head is refused.
ghost use Rattle.std.specs.Prelude.{◌≡◌};

use lt_bytes::NoMemory;

/// Why a head is refused. The first that holds is answered, in the order that `read_head` names.
#[derive(Clone, Copy, Debug, PartialEq, Eq)]
pub enum HeadRefusal {
    /// 400: the grammar reads no head, or its fields contradict each other.
    BadHead,
    /// 400: the target is no origin form, or its path has a control byte.
    BadTarget,
    /// 431: more field lines than the limit.
    TooLarge,
    /// 505: another version than HTTP/1.0 and HTTP/1.1.
    BadVersion,
    /// 501: a transfer coding other than chunked, or the method CONNECT.
    NotImplemented,
    NoMemory,
}

impl From<NoMemory> for HeadRefusal {
    ghost use Rattle.http_head.specs.declared.refusal.HeadRefusal.TheVariants.{NoMemory};

    ghost from_gives = { λ _ e. e ≡ NoMemory };

    fn from(_want: NoMemory) -> HeadRefusal {
        HeadRefusal::NoMemory
    }
}
