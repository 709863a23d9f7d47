//! The report: what each link took, and how it ended.
ghost use Rattle.std.specs.Prelude.{◌≡◌, ◌≤◌, length, take, OnErr};
ghost use Rattle.lt_world.specs.Causes.{Rose};
ghost use Rattle.script_net.specs.Reports.{Writes, ending_name, line_front, line_of, report_of};

use crate::links::Links;
use crate::writing::{put, write_all, write_quoted};
use lt_bytes::decimal;
use lt_world::{Ending, Fault, Sink};

/// The room for a line up to its bytes.
const FRONT: usize = 64;

/// Writes a line for each link, in their order.
pub fn write_report<S: Sink>(sink: &mut S, links: &Links) -> Result<(), Fault>
    ensures writes { S.tells → Writes result (S.bytes sink.old) (S.bytes sink.new) (report_of links.now.trace) }
    ensures cause { OnErr result (Rose (S.faults sink.old) (S.faults sink.new)) }
    ensures faults { S.faults sink.old ≤ S.faults sink.new }
    ensures later { S.later sink.old sink.new }
{
    for link in 0..links.len() {
        write_line(sink, link, links.ending(link), links.taken(link))?;
    }
    Ok(())
}

fn write_line<S: Sink>(
    sink: &mut S,
    link: usize,
    ending: Option<Ending>,
    taken: &[u8],
) -> Result<(), Fault>
    ensures writes { S.tells → Writes result (S.bytes sink.old) (S.bytes sink.new) (line_of link ending taken.now) }
    ensures cause { OnErr result (Rose (S.faults sink.old) (S.faults sink.new)) }
    ensures faults { S.faults sink.old ≤ S.faults sink.new }
    ensures later { S.later sink.old sink.new }
{
    let mut buf = [0; FRONT];
    let n = put_front(&mut buf, link, ending, taken.len());
    let (front, _) = buf.split_at(n);
    write_all(sink, front)?;
    write_quoted(sink, taken)?;
    write_all(sink, b"\"\n")
}

// Puts a line up to its bytes into a buffer, and answers where it ends.
fn put_front(buf: &mut [u8], link: usize, ending: Option<Ending>, count: usize) -> usize
    requires { 64 ≤ length buf.old }
    ensures within { result ≤ length buf.new }
    ensures text { take result buf.new ≡ line_front link ending count }
{
    let n = put(buf, 0, b"c");
    let n = put(buf, n, decimal(link as u64).bytes());
    let n = put(buf, n, b" ");
    let n = put(buf, n, ending_name(ending));
    let n = put(buf, n, b" ");
    let n = put(buf, n, decimal(count as u64).bytes());
    put(buf, n, b" \"")
}

fn ending_name(ending: Option<Ending>) -> &'static [u8]
    ensures name { result.now ≡ ending_name ending }
    ensures short { length result.now ≤ 12 }
{
    match ending {
        None => b"open",
        Some(Ending::Clean) => b"clean",
        Some(Ending::ClientFault) => b"client-fault",
        Some(Ending::FileFault) => b"file-fault",
        Some(Ending::GatewayCut) => b"gateway-cut",
        Some(Ending::Full) => b"full",
        Some(Ending::NoMemory) => b"no-memory",
        Some(Ending::Gate) => b"closed",
    }
}
