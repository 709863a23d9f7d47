//! What changes for one of the links.
ghost use Rattle.std.specs.Prelude.{◌≡◌, ◌<◌, ◌≤◌, ◌+◌, ◌++◌, length, set, OnOk, OnErr, Some};
ghost use Rattle.lt_world.specs.Answers.{read_act, GotWithin};
ghost use Rattle.script_net.specs.PortView.{PortView, kept_at};
ghost use Rattle.script_net.specs.Sides.{gives, with_bytes, with_end, with_failing_reads, with_failing_writes, with_close, with_read};

use crate::port::Port;
use lt_bytes::NoMemory;
use lt_world::{Ending, Got};

pub fn give_at(ports: &mut Vec<Port>, link: usize, bytes: &[u8]) -> Result<(), NoMemory>
    requires { link < length ports.old.items }
    ensures ok { OnOk result (ports.new.items ≡ set ports.old.items link (record (kept_at link ports.old.items) { side = with_bytes bytes.now (kept_at link ports.old.items).side })) }
    ensures err { OnErr result (ports.new.items ≡ ports.old.items) }
{
    let port = &mut ports[link];
    port.give(bytes)
}

pub fn end_at(ports: &mut Vec<Port>, link: usize)
    requires { link < length ports.old.items }
    ensures { ports.new.items ≡ set ports.old.items link (record (kept_at link ports.old.items) { side = with_end (kept_at link ports.old.items).side }) }
{
    let port = &mut ports[link];
    port.end();
}

pub fn fail_reads_at(ports: &mut Vec<Port>, link: usize)
    requires { link < length ports.old.items }
    ensures { ports.new.items ≡ set ports.old.items link (record (kept_at link ports.old.items) { side = with_failing_reads (kept_at link ports.old.items).side }) }
{
    let port = &mut ports[link];
    port.fail_reads();
}

pub fn fail_writes_at(ports: &mut Vec<Port>, link: usize)
    requires { link < length ports.old.items }
    ensures { ports.new.items ≡ set ports.old.items link (record (kept_at link ports.old.items) { side = with_failing_writes (kept_at link ports.old.items).side }) }
{
    let port = &mut ports[link];
    port.fail_writes();
}

pub fn close_at(ports: &mut Vec<Port>, link: usize, ending: Ending)
    requires { link < length ports.old.items }
    ensures { ports.new.items ≡ set ports.old.items link (record (kept_at link ports.old.items) { side = with_close (kept_at link ports.old.items).side; ending = Some ending }) }
{
    let port = &mut ports[link];
    port.close(ending);
}

/// Makes room for so many bytes that the link takes.
pub fn reserve_at(ports: &mut Vec<Port>, link: usize, room: usize) -> Result<(), NoMemory>
    requires { link < length ports.old.items }
    ensures ok { OnOk result (room ≤ (kept_at link ports.new.items).room) }
    ensures kept { ports.new.items ≡ set ports.old.items link (record (kept_at link ports.old.items) { room = (kept_at link ports.new.items).room }) }
    ensures more { (kept_at link ports.old.items).room ≤ (kept_at link ports.new.items).room }
    ensures err { OnErr result (ports.new.items ≡ ports.old.items) }
{
    let port = &mut ports[link];
    port.reserve(room)
}

pub fn take_at(ports: &mut Vec<Port>, link: usize, bytes: &[u8])
    requires known { link < length ports.old.items }
    requires room { length bytes.now ≤ (kept_at link ports.old.items).room }
    ensures taken { ports.new.items ≡ set ports.old.items link (record (kept_at link ports.old.items) { taken = (kept_at link ports.old.items).taken ++ bytes.now; room = (kept_at link ports.new.items).room }) }
    ensures room { (kept_at link ports.old.items).room ≤ (kept_at link ports.new.items).room + length bytes.now }
{
    let port = &mut ports[link];
    port.take(bytes);
}

pub fn read_at(ports: &mut Vec<Port>, link: usize, buf: &mut [u8]) -> Got
    requires known { link < length ports.old.items }
    requires some { 0 < length buf.old }
    ensures act { read_act result buf.new ≡ gives (length buf.old) (kept_at link ports.old.items).side }
    ensures rest { ports.new.items ≡ set ports.old.items link (record (kept_at link ports.old.items) { side = with_read (length buf.old) (kept_at link ports.old.items).side }) }
    ensures within { GotWithin result (length buf.new) }
{
    let port = &mut ports[link];
    port.read(buf)
}
