//! What is planned for a request.
ghost use Rattle.request_plan.specs.Lent.{lent};
ghost use Rattle.request_plan.specs.Finding.{IsInWords};

use file_reply::Answer;
use http_reply::Fields;
use lt_world::FileId;
use settings::Settings;

/// What follows the head of a reply.
#[derive(Clone, Copy, Debug, PartialEq, Eq)]
pub enum Content {
    /// The status in words.
    Phrase,
    /// So many bytes of an opened file, from `start` on; at least one.
    File { file: FileId, start: u64, len: u64 },
    /// So many bytes of a file of which none is sent: HEAD asks for their number alone, the status has no content, or
    /// there are none. The file is not open any more.
    Unsent { len: u64 },
}

/// What is planned for a request, with the settings of its reply.
#[derive(Drop)]
pub struct Chosen<'c> {
    pub settings: Settings<'c>,
    pub status: u16,
    pub fields: Fields,
    pub content: Content,
}

/// A status in words.
pub(crate) fn in_words(settings: Settings<'_>, said: Answer) -> Chosen<'_>
    ensures { IsInWords (lent settings.entry) said result }
{
    Chosen {
        settings,
        status: said.status,
        fields: said.fields,
        content: Content::Phrase,
    }
}
