//! A script: the files of a run, the calls that are to fail, and the events that a net hands out, in their order.
use lt_bytes::{List, Text};
use lt_world::Address;
use thiserror::Error;

/// What the lines of a script say: its files, its faults and its steps, each kind in the order of the lines.
#[derive(Debug, Drop)]
pub struct Script {
    pub files: List<ScriptFile>,
    pub faults: List<ScriptFault>,
    pub steps: List<Step>,
}

/// A file or a directory that is there during the whole run.
#[derive(Debug, Drop)]
pub enum ScriptFile {
    /// `file "PATH" TIME "BYTES"`.
    Bytes { path: Text, time: u64, bytes: Text },
    /// `fill "PATH" TIME SIZE`: the letters `a` to `z` again and again.
    Fill { path: Text, time: u64, size: u64 },
    /// `dir "PATH"`: a directory.
    Dir { path: Text },
}

/// `fault KIND K`: the Kth call of this kind, counted from 0, fails.
#[derive(Clone, Copy, Debug)]
pub struct ScriptFault {
    pub call: FaultCall,
    pub nth: u32,
}

/// A kind of call that a script can make fail by its number.
#[derive(Clone, Copy, Debug)]
pub enum FaultCall {
    /// `connect`: a link to a gateway is asked for.
    Connect,
    /// `find`: a path is looked up.
    Find,
    /// `open`: a file is opened.
    Open,
    /// `file`: an opened file is read.
    File,
    /// `listen`: the net begins to accept clients.
    Listen,
    /// `wait`: the net waits until something is ready.
    Wait,
}

/// A link as a script names it: `c0` is the first client that arrives, `c1` the second.
#[derive(Clone, Copy, Debug)]
pub struct Name {
    /// A link to a gateway; no line names one yet.
    pub gate: bool,
    /// Counted from 0 over the links of its kind.
    pub number: u32,
}

/// A line that plays events.
#[derive(Debug, Drop)]
pub enum Step {
    /// `accept IP:PORT IP:PORT`: a client arrives from the first address on the second.
    Accept { peer: Address, local: Address },
    /// `data LINK "BYTES"`: the link can read these bytes too.
    Bytes { link: Name, bytes: Text },
    /// `pour LINK SIZE`: the link can read so many letters too, `a` to `z` again and again.
    Pour { link: Name, size: u32 },
    /// `end LINK`: after what can be read the link has ended.
    End { link: Name },
    /// `ready LINK COUNT`: the link is readable this often.
    Ready { link: Name, count: u32 },
    /// `rfail LINK`: each later read fails, whatever could still be read.
    ReadFail { link: Name },
    /// `take LINK SIZE COUNT`: the link is writable this often, and a write takes at most `size` bytes.
    Take { link: Name, size: u32, count: u32 },
    /// `wfail LINK`: each later write fails.
    WriteFail { link: Name },
    /// `idle`: nothing is ready.
    Idle,
}

/// Why a text gives no script.
#[derive(Debug, Drop, Error)]
pub enum ScriptError {
    /// The first line that is outside the grammar, counted from 1.
    #[error("script line {number}")]
    Line { number: u32 },
    /// The text is longer than `SCRIPT_LIMIT`.
    #[error("the script is too long")]
    TooLong,
    #[error("out of memory")]
    NoMemory,
}
