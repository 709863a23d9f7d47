//! Truths.

/// Whether a block counts for a request.
#[derive(Clone, Copy, Debug, PartialEq, Eq)]
pub enum Truth {
    /// Its condition holds, and those around it do.
    True,
    /// It doesn't count.
    False,
    /// What it looks at isn't known yet.
    Unset,
}
