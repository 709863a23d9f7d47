//! How far the current request is.
ghost use Rattle.std.specs.Prelude.{◌≡◌, true, OnOk};
ghost use Rattle.connection.specs.Progress.{progress_accepted, progress_after, has_memory};

use http_head::{HeadScan, Request};
use lt_bytes::NoMemory;
use lt_http_body::{Body, BodyRefusal, BodyState};

/// How far the current request is. Requests are answered one at a time.
#[derive(Drop)]
pub(crate) enum Progress {
    /// Its head isn't whole yet, as far as it was looked at.
    Awaiting(HeadScan),
    /// Its head was read, and the limit of its body isn't known yet.
    Heading(Request),
    /// Its body is read.
    Taking(Request, Body),
    /// It is whole.
    Whole(Request),
    /// Its head is refused with this status.
    Refused(u16),
    /// Its head was read, and its body is refused with this status.
    Declined(u16, Request),
    /// Its reply was given, and is the last or not.
    Answering(bool),
}

impl Progress {
    /// How far it is once its body is accepted up to a limit.
    pub(crate) fn accepted(self, limit: u64) -> Progress
        ensures { result ≡ progress_accepted self limit }
    {
        match self {
            Progress::Heading(request) => {
                let body = Body::new(request.framing, limit);
                Progress::Taking(request, body)
            }
            other => other,
        }
    }

    /// How far it is once its body took up what came, and answered this.
    pub(crate) fn after(self, answer: Result<BodyState, BodyRefusal>) -> Progress
        ensures { result ≡ progress_after self answer }
    {
        match self {
            Progress::Taking(request, body) => match answer {
                Ok(BodyState::NeedMore) | Err(BodyRefusal::NoMemory) => {
                    Progress::Taking(request, body)
                }
                Ok(BodyState::Done) => Progress::Whole(request),
                Err(BodyRefusal::BadChunk) => Progress::Declined(400, request),
                Err(BodyRefusal::TooLarge) => Progress::Declined(413, request),
            },
            other => other,
        }
    }
}

/// Whether there was memory for what a body answered.
pub(crate) fn with_memory(answer: Result<BodyState, BodyRefusal>) -> Result<(), NoMemory>
    ensures { OnOk result (has_memory answer ≡ true) }
{
    match answer {
        Ok(_) | Err(BodyRefusal::BadChunk | BodyRefusal::TooLarge) => Ok(()),
        Err(BodyRefusal::NoMemory) => Err(NoMemory),
    }
}
