//! What a net told of its links, in three lines.
ghost use Rattle.std.specs.Prelude.{◌≡◌, ◌<◌, ◌≤◌, length, OnErr};
ghost use Rattle.lt_world.specs.Causes.{Rose};
ghost use Rattle.script_net.specs.Reports.{Writes};
ghost use Rattle.lt_world.specs.Trace.{own};
ghost use Rattle.script_gen.specs.Totals.{is_clean, ends_clean, client_bytes, arrived_below, clean_below, bytes_below, counted, line_of, summary_of};

use lt_bytes::decimal;
use lt_world::{Ending, Fault, Sink};
use script_net::{ScriptNet, write_all};

/// Writes how many clients a net had, how many of them were closed clean, and how many bytes they took. It takes no memory.
pub fn summary<S: Sink>(net: &ScriptNet, sink: &mut S) -> Result<(), Fault>
    ensures writes { S.tells → Writes result (S.bytes sink.old) (S.bytes sink.new) (summary_of net.now.game.trace) }
    ensures cause { OnErr result (Rose (S.faults sink.old) (S.faults sink.new)) }
    ensures faults { S.faults sink.old ≤ S.faults sink.new }
    ensures later { S.later sink.old sink.new }
{
    let links = net.link_count();
    let clients = count_clients(net, links);
    let clean = count_clean(net, links);
    let bytes = sum_bytes(net, links);
    write_line(sink, b"connections ", clients)?;
    write_line(sink, b"clean ", clean)?;
    write_line(sink, b"bytes ", bytes)
}

// How many of the first links are clients'.
fn count_clients(net: &ScriptNet, links: usize) -> u64
    ensures { result ≡ arrived_below links net.now.game.trace }
{
    let mut clients = 0;
    for link in 0..links {
        clients += u64::from(net.has_arrived(link));
    }
    clients
}

// How many of them were closed clean.
fn count_clean(net: &ScriptNet, links: usize) -> u64
    requires { links ≤ length net.now.game.sides }
    ensures { result ≡ clean_below links net.now.game.trace }
{
    let mut clean = 0;
    for link in 0..links {
        clean += u64::from(ends_clean(net, link));
    }
    clean
}

fn ends_clean(net: &ScriptNet, link: usize) -> bool
    requires { link < length net.now.game.sides }
    ensures { result ≡ ends_clean (own link net.now.game.trace) }
{
    net.has_arrived(link) && is_clean(net.ending(link))
}

fn is_clean(ending: Option<Ending>) -> bool
    ensures { result ≡ is_clean ending }
{
    match ending {
        Some(Ending::Clean) => true,
        _ => false,
    }
}

// How many bytes they took.
#[tactic(auto, using(crate::proofs::Ranges::counted_more))]
fn sum_bytes(net: &ScriptNet, links: usize) -> u64
    requires { links ≤ length net.now.game.sides }
    ensures { result ≡ counted (bytes_below links net.now.game.trace) }
{
    let mut bytes = 0u64;
    for link in 0..links {
        bytes = bytes.saturating_add(client_bytes(net, link));
    }
    bytes
}

fn client_bytes(net: &ScriptNet, link: usize) -> u64
    requires { link < length net.now.game.sides }
    ensures { result ≡ client_bytes (own link net.now.game.trace) }
{
    if !net.has_arrived(link) {
        return 0;
    }
    net.taken(link).len() as u64
}

// A line of the summary.
fn write_line<S: Sink>(sink: &mut S, name: &[u8], count: u64) -> Result<(), Fault>
    ensures writes { S.tells → Writes result (S.bytes sink.old) (S.bytes sink.new) (line_of name.now count) }
    ensures cause { OnErr result (Rose (S.faults sink.old) (S.faults sink.new)) }
    ensures faults { S.faults sink.old ≤ S.faults sink.new }
    ensures later { S.later sink.old sink.new }
{
    write_all(sink, name)?;
    write_all(sink, decimal(count).bytes())?;
    write_all(sink, b"\n")
}
