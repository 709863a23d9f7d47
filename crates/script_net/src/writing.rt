//! Texts that go to a sink.
ghost use Rattle.std.specs.Prelude.{◌≡◌, ◌+◌, ◌*◌, ◌≤◌, ◌++◌, length, take, OnErr};
ghost use Rattle.lt_bytes.specs.Quoting.{quoted};
ghost use Rattle.lt_world.specs.Causes.{Rose};
ghost use Rattle.script_net.specs.Reports.{Writes};

use lt_bytes::quoted;
use lt_world::{Fault, Sink};

/// How many bytes are spelled at a time, and the room for their spelling.
const PIECE: usize = 1_024;

const SPELLED: usize = 4_096;

/// Writes all bytes of a text.
pub fn write_all<S: Sink>(sink: &mut S, text: &[u8]) -> Result<(), Fault>
    ensures writes { S.tells → Writes result (S.bytes sink.old) (S.bytes sink.new) text.now }
    ensures cause { OnErr result (Rose (S.faults sink.old) (S.faults sink.new)) }
    ensures faults { S.faults sink.old ≤ S.faults sink.new }
    ensures later { S.later sink.old sink.new }
{
    let mut rest = text;
    while rest.len() > 0 {
        let n = sink.write(rest)?;
        rest = &rest[n..];
    }
    Ok(())
}

/// Writes bytes as they stand between quotes.
pub fn write_quoted<S: Sink>(sink: &mut S, bytes: &[u8]) -> Result<(), Fault>
    ensures writes { S.tells → Writes result (S.bytes sink.old) (S.bytes sink.new) (quoted bytes.now) }
    ensures cause { OnErr result (Rose (S.faults sink.old) (S.faults sink.new)) }
    ensures faults { S.faults sink.old ≤ S.faults sink.new }
    ensures later { S.later sink.old sink.new }
{
    let mut buf = [0; SPELLED];
    let mut rest = bytes;
    while rest.len() > 0 {
        let (piece, next) = rest.split_at(rest.len().min(PIECE));
        let n = spell(piece, &mut buf);
        let (text, _) = buf.split_at(n);
        write_all(sink, text)?;
        rest = next;
    }
    Ok(())
}

// Puts the spelling of bytes at the front of a buffer, and answers where it ends.
fn spell(bytes: &[u8], buf: &mut [u8]) -> usize
    requires { 4 * length bytes.now ≤ length buf.old }
    ensures within { result ≤ length buf.new }
    ensures text { take result buf.new ≡ quoted bytes.now }
{
    let mut n = 0;
    for byte in bytes {
        let text = quoted(*byte);
        n = put(buf, n, text.bytes());
    }
    n
}

/// Puts a text into a buffer, and answers where it ends.
pub fn put(buf: &mut [u8], at: usize, text: &[u8]) -> usize
    requires { at + length text.now ≤ length buf.old }
    ensures end { result ≡ at + length text.now }
    ensures text { take result buf.new ≡ take at buf.old ++ text.now }
{
    let end = at + text.len();
    buf[at..end].copy_from_slice(text);
    end
}
