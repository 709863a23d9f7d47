//! The replies that the server spells.
ghost use Rattle.std.specs.Prelude.{◌≡◌, ◌≤◌, ◌&&◌, ◌==◌, [], length, not, IfOk};
ghost use Rattle.server_model.specs.Reply.{error_bytes, content_head};

use crate::form::Form;
use crate::planner::Planner;
use http_reply::{Fields, Spelling, error_reply, reply_head};
use lt_bytes::{NoMemory, Text};

/// A bound on the bytes of a reply that the server spells itself.
pub const REPLY_LIMIT: usize = 65_536;

impl Planner<'_> {
    /// A reply that says its status in words, whole.
    pub fn error_reply(
        &self,
        tag: &[u8],
        form: Form,
        status: u16,
        fields: &Fields,
    ) -> Result<Text, NoMemory>
        ensures spelled { IfOk result (λ text. text ≡ error_bytes tag.now form.minor status fields.now form.last form.head_only) }
        ensures short { IfOk result (λ text. length text ≤ REPLY_LIMIT) }
    {
        let spelling = spelling(tag, form, status, None);
        short(error_reply(self.alloc, &spelling, fields, form.head_only)?)
    }

    /// The same without fields of its own, as a request is refused.
    pub fn refusal(&self, tag: &[u8], form: Form, status: u16) -> Result<Text, NoMemory>
        ensures spelled { IfOk result (λ text. text ≡ error_bytes tag.now form.minor status [] form.last form.head_only) }
        ensures short { IfOk result (λ text. length text ≤ REPLY_LIMIT) }
    {
        let fields = Fields::new(self.alloc);
        self.error_reply(tag, form, status, &fields)
    }

    /// The head before so many bytes of a file.
    pub fn content_head(
        &self,
        tag: &[u8],
        form: Form,
        status: u16,
        fields: &Fields,
        len: u64,
    ) -> Result<Text, NoMemory>
        ensures spelled { IfOk result (λ text. text ≡ content_head tag.now form.minor status fields.now len form.last) }
        ensures short { IfOk result (λ text. length text ≤ REPLY_LIMIT) }
    {
        short(reply_head(self.alloc, &spelling(tag, form, status, Some(len)), fields)?)
    }
}

// A text that is no longer than a reply's own bytes ever are.
fn short(text: Text) -> Result<Text, NoMemory>
    ensures same { IfOk result (λ t. t ≡ text) }
    ensures short { IfOk result (λ t. length t ≤ REPLY_LIMIT) }
{
    if text.len() <= REPLY_LIMIT {
        return Ok(text);
    }
    Err(NoMemory)
}

// HTTP/1.0 is told that its connection is kept.
fn spelling(tag: &[u8], form: Form, status: u16, length: Option<u64>) -> Spelling<'_>
    ensures minor { result.minor ≡ form.minor }
    ensures status { result.status ≡ status }
    ensures length { result.length ≡ length }
    ensures last { result.last ≡ form.last }
    ensures keep { result.keep ≡ (not form.last && form.minor == 0) }
    ensures tag { result.tag.now ≡ tag.now }
{
    Spelling {
        minor: form.minor,
        status,
        length,
        last: form.last,
        keep: !form.last && form.minor == 0,
        tag,
    }
}
