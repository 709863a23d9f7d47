//! Where an answer stands.
ghost use Rattle.std.specs.Prelude.{◌≡◌};
ghost use Rattle.proxy_message.specs.Progress as spec;
ghost use Rattle.proxy_message.specs.Feeding.{IsSoundStage};

use crate::stage::Stage;
use cgi_text::CgiHead;
use lt_bytes::Text;
use std::alloc::Global;

/// What is known of an answer.
#[derive(Drop)]
pub(crate) struct Progress {
    /// The answer is one to HEAD, which has no body.
    pub(crate) head_only: bool,
    /// The head of the answer, once it came.
    pub(crate) head: Option<CgiHead>,
    pub(crate) stage: Stage,
}

impl Progress {
    /// No head of the answer came yet.
    pub(crate) fn before(head_only: bool, stage: Stage) -> Progress
        ensures { result ≡ spec.before head_only stage }
    {
        Progress {
            head_only,
            head: None,
            stage,
        }
    }

    /// At the first byte of a head.
    pub(crate) fn begin(alloc: Global, head_only: bool) -> Progress
        ensures begins { result ≡ spec.begin head_only }
        ensures sound { IsSoundStage result.stage }
    {
        Progress::before(head_only, Stage::Head(Text::new(alloc)))
    }
}
