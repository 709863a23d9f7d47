//! How a call of the program ends: its status, the exit number, and the text on standard error.
ghost use Rattle.std.specs.Prelude.{◌≡◌, Some};
ghost use Rattle.lt_commands.specs.Exits.{exit_number, kind_number, status_text};

use conf_eval::{ConfFault, ConfKind};
use std::fmt;

/// How a call ended.
#[derive(Clone, Copy, Debug, PartialEq, Eq)]
pub enum Status {
    /// The work was done, and the output was written whole.
    Done,
    /// The configuration has this fault.
    Conf(ConfFault),
    /// The words are no line of this call.
    Usage,
    /// This line is the first that is wrong; line 0 says that the script is too long.
    Script { line: u32 },
    /// A named text cannot be read.
    TextFault,
    /// The output could not be written.
    SinkFault,
    /// Memory was wanted.
    NoMemory,
    /// There is no text of this name: text 1 is the configuration, text 2 the script.
    Missing { text: u32 },
    /// The address could not be listened at.
    ListenFault,
    /// The next event could not be waited for.
    WaitFault,
}

impl Status {
    /// The number with which the program ends.
    pub fn exit_number(self) -> u8
        ensures { result ≡ exit_number self }
    {
        match self {
            Status::Done => 0,
            Status::Conf(_) => 1,
            Status::Usage => 2,
            Status::Script { .. } => 3,
            Status::TextFault => 4,
            Status::SinkFault => 5,
            Status::NoMemory => 6,
            Status::Missing { .. } => 7,
            Status::ListenFault => 8,
            Status::WaitFault => 9,
        }
    }
}

// The number of a fault.
fn kind_number(kind: ConfKind) -> u8
    ensures { result ≡ kind_number kind }
{
    kind as u8
}

/// The text on standard error; it is empty at `Done`.
impl fmt::Display for Status {
    ghost output = { λ status. Some (status_text status) };

    fn fmt<W: fmt::Write>(&self, f: &mut fmt::Formatter<W>) -> fmt::Result {
        match self {
            Status::Done => Ok(()),
            Status::Conf(fault) => {
                let kind = kind_number(fault.kind);
                let file = fault.file;
                let line = fault.line;
                write!(f, "lighttpd: C{kind} file {file} line {line}")
            }
            Status::Usage => write!(
                f,
                "usage: lighttpd [-D] [-t | -p] -f CONF | replay -f CONF SCRIPT | bench NUMBER"
            ),
            Status::Script { line } => write!(f, "lighttpd: script line {line}"),
            Status::TextFault => write!(f, "lighttpd: a text cannot be read"),
            Status::SinkFault => write!(f, "lighttpd: output failed"),
            Status::NoMemory => write!(f, "lighttpd: out of memory"),
            Status::Missing { text } => write!(f, "lighttpd: text {text} is missing"),
            Status::ListenFault => write!(f, "lighttpd: cannot listen"),
            Status::WaitFault => write!(f, "lighttpd: waiting failed"),
        }
    }
}
