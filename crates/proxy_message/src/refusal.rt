//! What is answered of an answer that is read.

/// Whether an answer is whole.
#[derive(Clone, Copy, Debug, PartialEq, Eq)]
pub enum AnswerState {
    /// The bytes that came are no whole answer yet.
    NeedMore,
    /// The answer is whole.
    Done,
}

/// Why an answer is refused.
#[derive(Clone, Copy, Debug, PartialEq, Eq)]
pub enum AnswerRefusal {
    /// No answer goes on with the bytes that came, or it ended too early.
    BadAnswer,
    /// The body is above the limit.
    TooLarge,
    /// Memory ran out. Nothing is lost.
    NoMemory,
}
