//! Generated scripts, and the summary of a run.
ghost use Rattle.std.specs.Prelude.{◌<◌, ◌≤◌, length};

use lt_script::print_script;
use lt_world::{Ending, Event, Link, MemFiles, MemSink, Net};
use script_gen::{generate, summary};
use script_net::ScriptNet;
use std::test::Fail;

/// The script of one client, whose draw is 7806831264735756412.
const ONE: &[u8] = b"\
lighttpd-script 1
fill \"/srv/f0\" 0 0
fill \"/srv/f1\" 0 300
fill \"/srv/f2\" 0 5000
fill \"/srv/f3\" 0 70000
accept 10.0.0.5:40000 127.0.0.1:80
data c0 \"GET /f1 HTTP/1.1\\r\\nHost: h\\r\\nConnection: close\\r\\n\\r\\n\"
take c0 2964 1200
";

#[test]
fn a_script_of_one_client_asks_for_the_second_file(rt: HostRuntime) -> Result<(), Fail> {
    let script = generate(rt.alloc(), 1)?;
    let text = print_script(rt.alloc(), &script)?;
    assert_eq!(rt; text.bytes(), ONE);
    Ok(())
}

// Offers five bytes to a link. The first link is closed clean then.
fn offer(net: &mut ScriptNet, link: Link)
    requires known { link.0 < length net.old.game.sides }
    requires calls { 1 < net.old.calls }
    requires room { 5 ≤ net.old.room }
{
    let _ = net.write(link, b"hello");
    if link.0 == 0 {
        net.close(link, Ending::Clean);
    }
}

#[test]
fn a_summary_has_the_bytes_of_open_links_too(rt: HostRuntime) -> Result<(), Fail> {
    let mut files = MemFiles::new(rt.alloc());
    let mut net = ScriptNet::new(rt.alloc());
    net.load(&generate(rt.alloc(), 2)?, &mut files)?;
    // Each client arrives, sends and takes; then the second one takes once more.
    for _ in 0..7 {
        if let Event::Writable(link) = net.next() {
            offer(&mut net, link);
        }
    }
    let mut sink = MemSink::new(rt.alloc(), 100)?;
    assert!(rt; summary(&net, &mut sink).is_ok());
    assert_eq!(rt;
        sink.bytes(),
        b"connections 2\nclean 1\nbytes 15\n".as_slice()
    );
    Ok(())
}
