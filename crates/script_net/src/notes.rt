//! Short notes of what was done on the links.
ghost use Rattle.std.specs.Prelude.{◌≡◌};
ghost use Rattle.script_net.specs.Noted.{read_done, write_done};

use lt_world::{Address, Ending, Got, Owner};

/// What was done on a link.
#[derive(Clone, Copy, Debug)]
pub enum Done {
    Accepted(Address, Address),
    Readable,
    Writable,
    /// The bytes stand in what the script gave, from here on.
    Read {
        asked: usize,
        at: usize,
        len: usize,
    },
    ReadEnd,
    ReadNotYet,
    ReadFailed,
    /// The bytes stand in what the link took, from here on.
    Wrote {
        offered: usize,
        at: usize,
        len: usize,
    },
    WriteNotYet,
    WriteFailed,
    Connect(Owner, Address),
    Close(Ending),
}

#[derive(Clone, Copy, Debug)]
pub struct Note {
    pub link: u32,
    pub done: Done,
}

/// The note of a read that asked for so many bytes and began here.
pub fn read_done(got: Got, asked: usize, at: usize) -> Done
    ensures { result ≡ read_done got asked at }
{
    match got {
        Got::Bytes(len) => Done::Read { asked, at, len },
        Got::End => Done::ReadEnd,
        Got::NotYet => Done::ReadNotYet,
        Got::Failed => Done::ReadFailed,
    }
}

/// The note of a write of so many bytes, of which a link took some.
pub fn write_done(offered: usize, at: usize, len: usize) -> Done
    ensures { result ≡ write_done offered at len }
{
    if len == 0 {
        return Done::WriteNotYet;
    }
    Done::Wrote { offered, at, len }
}
