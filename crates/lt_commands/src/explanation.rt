//! What people are told of a status beside its text: where something is wrong, and what, in words.
ghost use Rattle.std.specs.Prelude.{◌≡◌, Some};
ghost use Rattle.lt_commands.specs.Explaining.{explained, reason, subject_of};

use crate::status::Status;
use conf_eval::ConfKind;
use std::fmt;

/// A status in words, for people: `lighttpd.conf:2: server.document-root is set twice in this block`.
#[derive(Clone, Copy, Debug)]
pub struct Explanation<'a> {
    pub status: Status,
    /// The name of the text in which something is wrong, or that is wrong itself.
    pub name: &'a str,
    /// What the line at fault begins with, as a key.
    pub subject: &'a str,
}

/// Its text; it is empty at `Done`.
impl fmt::Display for Explanation<'_> {
    ghost output = { λ e. Some (explained e.status e.name.now e.subject.now) };

    fn fmt<W: fmt::Write>(&self, f: &mut fmt::Formatter<W>) -> fmt::Result {
        let name = self.name;
        match self.status {
            Status::Done => Ok(()),
            Status::Conf(fault) => {
                let line = fault.line;
                let subject = subject_of(fault.kind, self.subject);
                let reason = reason(fault.kind);
                write!(f, "{name}:{line}: {subject}{reason}")
            }
            Status::Usage => write!(f, "lighttpd: these words are no line of the program"),
            Status::Script { line: 0 } => write!(f, "{name}: the script is longer than 16 MiB"),
            Status::Script { line } => write!(f, "{name}:{line}: this is no line of a script"),
            Status::TextFault => write!(f, "{name}: this text cannot be read"),
            Status::SinkFault => write!(f, "lighttpd: standard output takes no more"),
            Status::NoMemory => write!(f, "lighttpd: the system gives no more memory"),
            Status::Missing { .. } => write!(f, "{name}: there is no such text"),
            Status::ListenFault => write!(
                f,
                "lighttpd: the address is in use, or is none of this machine that the user may take"
            ),
            Status::WaitFault => write!(f, "lighttpd: the system reports no more events"),
        }
    }
}

fn subject_of(kind: ConfKind, subject: &str) -> &str
    ensures { result.now ≡ subject_of kind subject.now }
{
    match kind {
        ConfKind::NoRoot => "server.document-root",
        _ => subject,
    }
}

fn reason(kind: ConfKind) -> &'static str
    ensures { result.now ≡ reason kind }
{
    match kind {
        ConfKind::NotUtf8 => " has a byte that is not UTF-8",
        ConfKind::Grammar => " goes on as no configuration does, or ends too early",
        ConfKind::UnknownField => " begins a block on a condition that is not known",
        ConfKind::Duplicate => " is set twice in this block",
        ConfKind::UnknownVariable => " reads a variable that is set nowhere above",
        ConfKind::Mixed => " joins values of two kinds",
        ConfKind::Overflow => " has a sum that passes 64 bits",
        ConfKind::WrongType => " has a value of another kind than it takes",
        ConfKind::BadValue => " has a value that breaks its rule",
        ConfKind::PatternRefused => " has a pattern that is no regular expression",
        ConfKind::IncludeMissing => " names a text that is not there",
        ConfKind::TextFault => " names a text that cannot be read",
        ConfKind::IncludeDeep => " is the 17th inside one another",
        ConfKind::TooLong => " takes the texts together past 1 MiB",
        ConfKind::TooMany => " is one block or pattern too many",
        ConfKind::NoRoot => " is not set in the global block",
        ConfKind::Deep => " is nested deeper than 64",
    }
}
