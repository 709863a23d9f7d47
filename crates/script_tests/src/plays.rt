//! Whole runs of a script, with a log of what each call answered.
ghost use Rattle.std.specs.Prelude.{◌<◌, ◌≤◌, length};

use lt_bytes::{NoMemory, Text};
use lt_script::{ScriptError, parse_script};
use lt_world::{
    Address, Dialled, Ending, Event, Fault, Files, Found, Got, Link, MemFiles, MemSink, Net, Owner,
    Took, Waits,
};
use script_net::{ScriptNet, plan_files, report};
use std::alloc::Global;
use std::test::Fail;

/// Runs, a `~` between them: the lines, the log of their answers, the report, a `|` between them.
const RUNS: &[u8] = b"\
||~\
# What can be read is given up to the buffer, then the end; the lines of a link that is not open are skipped.
end c0
accept 1.1.1.1:1 2.2.2.2:2
data c0 \"hello world\"
data c0 \"!\"
data c0 \"\"
end c0
data c0 \"x\"
|c0 takes none
c0 reads hello wo
c0 reads rld!
c0 has none
c0 ends
|c0 clean 0 \"\"
~\
# A write takes the size of the line, or all; the rest of a count is skipped once the link is closed.
accept 1.1.1.1:1 2.2.2.2:2
accept 1.1.1.1:1 2.2.2.2:2
take c1 3 2
take c0 0 1
take c0 65536 1
take c1 1 9
|c0 takes none
c1 takes none
c1 takes 3
c1 takes 3
c0 takes none
c0 takes 5
c1 takes 1
|c0 open 5 \"ab\\\"\\x00z\"
c1 client-fault 7 \"ab\\\"ab\\\"a\"
~\
# Letters are poured, and a link is ready until it is closed.
ready c0 2
accept 1.1.1.1:1 2.2.2.2:2
pour c0 10
ready c0 2
end c0
ready c0 9
idle
|c0 takes none
c0 reads abcdefgh
c0 reads ij
c0 has none
c0 ends
idle
|c0 clean 0 \"\"
~\
# From `rfail` on nothing is read, from `wfail` on nothing is taken.
accept 1.1.1.1:1 2.2.2.2:2
data c0 \"a\"
data c0 \"b\"
rfail c0
ready c0 1
take c0 5 1
wfail c0
take c0 5 1
|c0 takes none
c0 reads a
c0 reads b
c0 fails to read
c0 fails to read
c0 takes 5
c0 fails to take
c0 fails to take
|c0 open 5 \"ab\\\"\\x00z\"
~\
# A read fails where there are bytes that could be read.
accept 1.1.1.1:1 2.2.2.2:2
pour c0 20
rfail c0
|c0 takes none
c0 reads abcdefgh
c0 fails to read
|c0 open 0 \"\"
";

// A net that plays these lines, which are in the grammar.
fn loaded(alloc: Global, lines: &[u8], files: &mut MemFiles) -> Result<ScriptNet, ScriptError> {
    let mut net = ScriptNet::new(alloc);
    let Ok(mut text) = Text::from_bytes(alloc, b"lighttpd-script 1\n") else {
        return Err(ScriptError::NoMemory);
    };
    if text.push_all(lines).is_err() {
        return Err(ScriptError::NoMemory);
    }
    let script = parse_script(alloc, text.bytes())?;
    match net.load(&script, files) {
        Ok(()) => Ok(net),
        Err(NoMemory) => Err(ScriptError::NoMemory),
    }
}

// Adds a line to a log: the link, and what it did.
fn note(alloc: Global, log: &mut Text, link: Link, did: &[u8]) -> Result<(), NoMemory> {
    log.push_all(format!(in alloc; "c{} ", link.0)?.as_bytes())?;
    log.push_all(did)?;
    log.push(b'\n')
}

// Offers five bytes to a link. One that takes a single byte is given up.
fn offer(alloc: Global, net: &mut ScriptNet, link: Link, log: &mut Text) -> Result<(), NoMemory>
    requires known { link.0 < length net.old.game.sides }
    requires calls { 1 < net.old.calls }
    requires room { 5 ≤ net.old.room }
{
    match net.write(link, b"ab\"\x00z") {
        Took::Bytes(n) => {
            if n == 1 {
                net.close(link, Ending::ClientFault);
            }
            note(
                alloc,
                log,
                link,
                format!(in alloc; "takes {}", n)?.as_bytes(),
            )
        }
        Took::NotYet => note(alloc, log, link, b"takes none"),
        Took::Failed => note(alloc, log, link, b"fails to take"),
    }
}

// Reads at most eight bytes from a link. One that ended is closed.
fn read(alloc: Global, net: &mut ScriptNet, link: Link, log: &mut Text) -> Result<(), NoMemory>
    requires known { link.0 < length net.old.game.sides }
    requires calls { 1 < net.old.calls }
    requires room { 8 ≤ net.old.room }
{
    let mut line = *b"reads ........";
    match net.read(link, &mut line[6..]) {
        Got::Bytes(n) => note(alloc, log, link, &line[..6 + n]),
        Got::End => {
            net.close(link, Ending::Clean);
            note(alloc, log, link, b"ends")
        }
        Got::NotYet => note(alloc, log, link, b"has none"),
        Got::Failed => note(alloc, log, link, b"fails to read"),
    }
}

// Answers the next event, and adds what came of it to a log. Answers whether the script goes on.
fn answer(alloc: Global, net: &mut ScriptNet, log: &mut Text) -> Result<bool, NoMemory> {
    match net.next() {
        Event::Arrived {
            link,
            peer: _,
            local: _,
        } => offer(alloc, net, link, log)?,
        Event::Readable(link) => read(alloc, net, link, log)?,
        Event::Writable(link) => offer(alloc, net, link, log)?,
        Event::Idle => log.push_all(b"idle\n")?,
        Event::Over => return Ok(false),
        Event::NoMemory => return Err(NoMemory),
    }
    Ok(true)
}

// Plays lines to their end, with a log, and reports to a sink of this room.
fn play(
    alloc: Global,
    lines: &[u8],
    log: &mut Text,
    sink: &mut MemSink,
) -> Result<(), ScriptError> {
    let mut files = MemFiles::new(alloc);
    let mut net = loaded(alloc, lines, &mut files)?;
    for _ in 0..100 {
        match answer(alloc, &mut net, log) {
            Ok(true) => {}
            Ok(false) => break,
            Err(NoMemory) => return Err(ScriptError::NoMemory),
        }
    }
    report(&net, sink).map_err(|_| ScriptError::TooLong)
}

#[test]
fn a_script_is_played_line_by_line(rt: HostRuntime) -> Result<(), Fail> {
    let alloc = rt.alloc();
    for run in RUNS.split(|byte| *byte == b'~') {
        let mut parts = run.split(|byte| *byte == b'|');
        let lines = parts.next().unwrap_or(b"");
        let mut log = Text::new(alloc);
        let mut sink = MemSink::new(alloc, 1_000)?;
        play(alloc, lines, &mut log, &mut sink)?;
        assert_eq!(rt; Some(log.bytes()), parts.next(), "{lines:?}");
        assert_eq!(rt; Some(sink.bytes()), parts.next(), "{lines:?}");
    }
    Ok(())
}

#[test]
fn a_sink_that_is_full_has_the_front_of_the_report(rt: HostRuntime) -> Result<(), Fail> {
    let alloc = rt.alloc();
    let mut log = Text::new(alloc);
    let mut sink = MemSink::new(alloc, 9)?;
    let lines = b"accept 1.1.1.1:1 2.2.2.2:2\ntake c0 5 1\n";
    assert!(rt; play(alloc, lines, &mut log, &mut sink).is_err());
    assert_eq!(rt; sink.bytes(), b"c0 open 5".as_slice());
    Ok(())
}

#[test]
fn a_connect_fails(rt: HostRuntime) -> Result<(), Fail> {
    let mut files = MemFiles::new(rt.alloc());
    let mut net = loaded(rt.alloc(), b"accept 1.1.1.1:1 2.2.2.2:2\n", &mut files)?;
    let owner = Owner {
        conn: 0,
        request: 0,
    };
    let to = Address {
        ip: [127, 0, 0, 1],
        port: 9_000,
    };
    if let Event::Arrived {
        link: _,
        peer: _,
        local: _,
    } = net.next()
    {
        assert_eq!(rt; net.connect(owner, to), Dialled::Failed);
    }
    Ok(())
}

#[test]
fn listening_and_waiting_fail_as_planned(rt: HostRuntime) -> Result<(), Fail> {
    let mut files = MemFiles::new(rt.alloc());
    let lines = b"fault wait 1\nfault listen 0\nfault find 0\nfault wait 1\n";
    let mut net = loaded(rt.alloc(), lines, &mut files)?;
    let at = Address {
        ip: [0, 0, 0, 0],
        port: 80,
    };
    assert_eq!(rt; (net.listen(at), net.listen(at)), (Err(Fault), Ok(())));
    assert_eq!(rt;
        (net.wait(), net.wait(), net.wait()),
        (Ok(()), Err(Fault), Ok(()))
    );
    Ok(())
}

#[test]
fn a_script_plans_the_faults_of_files(rt: HostRuntime) -> Result<(), Fail> {
    let mut files = MemFiles::new(rt.alloc());
    let text = b"lighttpd-script 1\nfault find 1\nfault wait 0\n";
    let script = parse_script(rt.alloc(), text)?;
    plan_files(script.faults.as_slice(), &mut files)?;
    assert_eq!(rt; found(&mut files, b"/a"), Found::Missing);
    assert_eq!(rt; found(&mut files, b"/a"), Found::Failed);
    assert_eq!(rt; found(&mut files, b"/a"), Found::Missing);
    Ok(())
}

// What is at a path.
fn found(files: &mut MemFiles, path: &[u8]) -> Found {
    let owner = Owner {
        conn: 0,
        request: 0,
    };
    files.find(owner, path)
}

#[test]
fn the_files_of_a_script_are_there(rt: HostRuntime) -> Result<(), Fail> {
    let mut files = MemFiles::new(rt.alloc());
    let lines = b"\
file \"/srv/a\" 7 \"hello\"
fill \"/srv/b\" 8 30
fill \"/srv/a\" 9 3
dir \"/home/d\"
";
    let _net = loaded(rt.alloc(), lines, &mut files)?;
    assert_eq!(rt; found(&mut files, b"/srv"), Found::Directory);
    assert_eq!(rt;
        found(&mut files, b"/srv/a"),
        Found::File { size: 3, time: 9 }
    );
    assert_eq!(rt;
        found(&mut files, b"/srv/b"),
        Found::File { size: 30, time: 8 }
    );
    assert_eq!(rt; found(&mut files, b"/srv/c"), Found::Missing);
    assert_eq!(rt; found(&mut files, b"/home"), Found::Directory);
    assert_eq!(rt; found(&mut files, b"/home/d"), Found::Directory);
    Ok(())
}
