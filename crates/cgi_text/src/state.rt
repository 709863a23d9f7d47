//! How an attempt at a gateway stands.

/// How an attempt at a gateway stands.
#[derive(Clone, Copy, Debug, PartialEq, Eq)]
pub enum GateState {
    /// More is to be sent or read.
    Waiting,
    /// The answer is there, and good.
    Answer,
    /// The attempt failed after the gateway took a byte, or its answer is too long: 502.
    Bad502,
    /// The attempt failed before the gateway took a byte: another host may be asked.
    Retry,
}
