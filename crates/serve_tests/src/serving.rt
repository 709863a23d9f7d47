//! Calls that serve the clients of a script.
use conditions::RegexMaker;
use lt_commands::{Status, answer};
use lt_script::parse_script;
use lt_serve::serve;
use lt_world::{MemFiles, MemSink, MemTexts};
use script_net::{ScriptNet, report};
use std::alloc::Global;
use std::sync::Wait;
use std::test::Fail;

const CONF: &[u8] = b"server.document-root = \"/srv\"\nserver.port = 81\nfoo.bar = 1\n";

/// What is put out before clients are served.
const SAID: &[u8] = b"warning: file 0 line 3: foo.bar is not used\nlistening on 0.0.0.0:81\n";

/// Two clients: the first sends three requests in one go, and takes its replies in pieces; the second is not answered in
/// full.
const SCRIPT: &[u8] = b"lighttpd-script 1
file \"/srv/a.txt\" 0 \"hello\"
accept 10.0.0.5:40000 127.0.0.1:81
accept 10.0.0.6:40001 127.0.0.1:81
data c0 \"GET /a.txt HTTP/1.1\\r\\nHost: h\\r\\n\\r\\nGET /no HTTP/1.1\\r\\nHost: h\\r\\n\\r\\nHEAD /a.txt HTTP/1.0\\r\\n\\r\\n\"
idle
take c0 7 100
data c1 \"GET /a.txt HTTP/1.1\\r\\nHost: h\\r\\n\\r\\n\"
take c1 30 1
";

fn words(alloc: Global, text: &str) -> Result<Vec<String>, Fail> {
    let mut words = Vec::new(alloc);
    for word in text.split_whitespace() {
        words.push(String::from_str(alloc, word)?)?;
    }
    Ok(words)
}

// Serves the clients of a script by the words of a text, and reports what they took.
fn served<R: Wait>(
    rt: &R,
    alloc: Global,
    text: &str,
    lines: &[u8],
    said: &mut MemSink,
    told: &mut MemSink,
) -> Result<Status, Fail> {
    let words = words(alloc, text)?;
    let mut texts = MemTexts::new(alloc);
    texts.add(b"K", CONF)?;
    let script = parse_script(alloc, lines)?;
    let mut files = MemFiles::new(alloc);
    let mut net = ScriptNet::new(alloc);
    net.load(&script, &mut files)?;
    let mut maker = RegexMaker::new(alloc);
    let status = serve(
        rt, alloc, &words, &mut texts, &mut maker, &mut net, &mut files, said,
    );
    let _reported = report(&net, told);
    Ok(status)
}

// The report of a replay of the same.
fn replayed(alloc: Global, told: &mut MemSink) -> Result<Status, Fail> {
    let words = words(alloc, "replay -f K S")?;
    let mut texts = MemTexts::new(alloc);
    texts.add(b"K", CONF)?;
    texts.add(b"S", SCRIPT)?;
    Ok(answer(alloc, &words, &mut texts, &mut RegexMaker::new(alloc), told))
}

#[test]
fn clients_are_served_as_in_a_replay(rt: HostRuntime) -> Result<(), Fail> {
    let alloc = rt.alloc();
    let mut said = MemSink::new(alloc, 4_096)?;
    let mut told = MemSink::new(alloc, 4_096)?;
    let mut expected = MemSink::new(alloc, 4_096)?;
    assert_eq!(rt;
        served(&rt, alloc, "-f K", SCRIPT, &mut said, &mut told)?,
        Status::Done
    );
    assert_eq!(rt; replayed(alloc, &mut expected)?, Status::Done);
    assert_eq!(rt; said.bytes(), SAID);
    assert_eq!(rt; told.bytes(), expected.bytes());
    assert!(rt; told.bytes().len() > 300);
    Ok(())
}

// How a call ends over a script of these lines, and whether it put out where it listens.
fn ends<R: Wait>(rt: &R, alloc: Global, text: &str, lines: &[u8]) -> Result<(Status, bool), Fail> {
    let mut said = MemSink::new(alloc, 4_096)?;
    let mut told = MemSink::new(alloc, 4_096)?;
    let status = served(rt, alloc, text, lines, &mut said, &mut told)?;
    Ok((status, said.bytes() == SAID))
}

#[test]
fn a_server_waits_after_each_idle(rt: HostRuntime) -> Result<(), Fail> {
    let alloc = rt.alloc();
    let ended = ends(
        &rt,
        alloc,
        "-f K",
        b"lighttpd-script 1\nfault wait 0\nidle\n",
    )?;
    assert_eq!(rt; ended, (Status::WaitFault, true));
    let ended = ends(
        &rt,
        alloc,
        "-f K",
        b"lighttpd-script 1\nfault wait 1\nidle\nidle\n",
    )?;
    assert_eq!(rt; ended, (Status::WaitFault, true));
    let ended = ends(
        &rt,
        alloc,
        "-f K",
        b"lighttpd-script 1\nfault wait 2\nidle\nidle\n",
    )?;
    assert_eq!(rt; ended, (Status::Done, true));
    Ok(())
}

#[test]
fn what_cannot_be_done_is_answered(rt: HostRuntime) -> Result<(), Fail> {
    let alloc = rt.alloc();
    let ended = ends(&rt, alloc, "-f K", b"lighttpd-script 1\nfault listen 0\n")?;
    assert_eq!(rt; ended, (Status::ListenFault, true));
    let ended = ends(&rt, alloc, "-f K", b"lighttpd-script 1\nfault listen 1\n")?;
    assert_eq!(rt; ended, (Status::Done, true));
    let ended = ends(
        &rt,
        alloc,
        "-D -f L",
        b"lighttpd-script 1\nfault listen 0\n",
    )?;
    assert_eq!(rt; ended, (Status::Missing { text: 1 }, false));
    let ended = ends(
        &rt,
        alloc,
        "-p -f K",
        b"lighttpd-script 1\nfault listen 0\n",
    )?;
    assert_eq!(rt; ended, (Status::Usage, false));
    Ok(())
}
