//! Runs in which a call on files or on the net fails.
ghost use Rattle.std.specs.Prelude.{◌≡◌, ◌<◌, IfOk};
ghost use Rattle.settings.specs.InForm.{IsInForm};
ghost use Rattle.conf_eval.specs.Patterns.{ArePatterns};
ghost use Rattle.server_model.specs.Files.{IsTable, Backs};

use crate::failing::Failing;
use conditions::{RegexMaker, Steps};
use conf_eval::{Loaded, load};
use lt_bytes::NoMemory;
use lt_commands::server_of;
use lt_script::parse_script;
use lt_world::{Ending, FileCall, Files, MemFiles, MemSink, MemTexts, Net};
use script_net::{ScriptNet, report};
use server_core::{Server, Turn};
use std::alloc::Global;
use std::marker::Brand;
use std::process::Abort;
use std::sync::ledger::{Blank, Ledger};
use std::test::Fail;

// Takes turns until the net is over, by a ledger that was opened for the count of comparisons alone.
fn run<N: Net, F: Files, L: Ledger>(
    blank: Blank,
    server: &mut Server<'_>,
    net: &mut N,
    files: &mut F,
)
    requires name { blank.name ≡ L.name }
    requires parts { blank.parts ≡ L.parts }
    requires some { 0 < L.parts }
    requires table { IsTable (N.links net.old) server.old.table }
    requires backs { F.tells → Backs (F.disk files.old).table server.old.table }
    ensures backs { F.tells → Backs (F.disk files.new).table server.new.table }
{
    let mut steps: Steps<L> = Steps::new(blank);
    for _ in 0..1_000 {
        match server.turn(net, files, &mut steps) {
            Turn::Did => {}
            Turn::Idle => {}
            Turn::Over => return,
            Turn::NoMemory => return,
        }
    }
}

// Takes turns until the net is over. Nobody asks how many conditions were compared.
fn run_to_the_end<N: Net, F: Files>(server: &mut Server<'_>, net: &mut N, files: &mut F)
    requires table { IsTable (N.links net.old) server.old.table }
    requires backs { F.tells → Backs (F.disk files.old).table server.old.table }
    ensures backs { F.tells → Backs (F.disk files.new).table server.new.table }
{
    run::<N, F, Brand>(Blank::new(1), server, net, files);
}

// A configuration that sets the document root alone.
fn plain(alloc: Global) -> Result<Loaded, NoMemory>
    ensures form { IfOk result (λ loaded. IsInForm loaded.config) }
    ensures patterns { IfOk result (λ loaded. ArePatterns loaded.config.blocks loaded.patterns) }
{
    let mut texts = MemTexts::new(alloc);
    texts.add(b"K", b"server.document-root = \"/srv\"")?;
    match load(alloc, b"K", &mut texts, &mut RegexMaker::new(alloc)) {
        Ok(loaded) => Ok(loaded),
        Err(_) => Err(NoMemory),
    }
}

// Serves the files below the document root to a net, and ends.
fn serve<N: Net, F: Files>(alloc: Global, net: &mut N, files: &mut F) -> Result<(), NoMemory> {
    let loaded = plain(alloc)?;
    let Ok(mut server) = server_of(alloc, &loaded) else {
        return Err(NoMemory);
    };
    run_to_the_end(&mut server, net, files);
    server.close(files);
    Ok(())
}

// Two requests and the turns in which they are answered.
const SCRIPT: &[u8] = b"lighttpd-script 1
file \"/srv/a.txt\" 7 \"hello\\n\"
accept 10.0.0.5:40000 127.0.0.1:80
data c0 \"GET /a.txt HTTP/1.1\\r\\nHost: x\\r\\n\\r\\nGET /e HTTP/1.1\\r\\nHost: x\\r\\n\\r\\n\"
take c0 65536 2
";

// The first call of this kind fails, and this is the report.
fn reports(rt: &impl Abort, alloc: Global, fails: FileCall, reported: &[u8]) -> Result<(), Fail> {
    let mut files = MemFiles::new(alloc);
    files.plan(fails, 0)?;
    let mut net = ScriptNet::new(alloc);
    let script = parse_script(alloc, SCRIPT)?;
    net.load(&script, &mut files)?;
    serve(alloc, &mut net, &mut files)?;
    let mut sink = MemSink::new(alloc, 1_000)?;
    assert!(rt; report(&net, &mut sink).is_ok());
    assert_eq!(rt; sink.bytes(), reported);
    Ok(())
}

#[test]
fn a_call_on_files_that_fails_is_told(rt: HostRuntime) -> Result<(), Fail> {
    let alloc = rt.alloc();
    reports(
        &rt,
        alloc,
        FileCall::Find,
        b"c0 open 232 \"HTTP/1.1 500 Internal Server Error\\r\\nContent-Type: text/plain\\r\\nContent-Length: 26\\r\\nServer: lighttpd\\r\\n\\r\\n500 Internal Server Error\\nHTTP/1.1 404 Not Found\\r\\nContent-Type: text/plain\\r\\nContent-Length: 14\\r\\nServer: lighttpd\\r\\n\\r\\n404 Not Found\\n\"\n",
    )?;
    reports(
        &rt,
        alloc,
        FileCall::Open,
        b"c0 open 232 \"HTTP/1.1 500 Internal Server Error\\r\\nContent-Type: text/plain\\r\\nContent-Length: 26\\r\\nServer: lighttpd\\r\\n\\r\\n500 Internal Server Error\\nHTTP/1.1 404 Not Found\\r\\nContent-Type: text/plain\\r\\nContent-Length: 14\\r\\nServer: lighttpd\\r\\n\\r\\n404 Not Found\\n\"\n",
    )?;
    // A read cuts the reply off.
    reports(
        &rt,
        alloc,
        FileCall::Read,
        b"c0 file-fault 164 \"HTTP/1.1 200 OK\\r\\nContent-Type: application/octet-stream\\r\\nAccept-Ranges: bytes\\r\\nLast-Modified: Thu, 01 Jan 1970 00:00:07 GMT\\r\\nContent-Length: 6\\r\\nServer: lighttpd\\r\\n\\r\\n\"\n",
    )
}

#[test]
fn a_client_whose_call_fails_is_closed(rt: HostRuntime) -> Result<(), Fail> {
    for reads in [false, true] {
        let mut net = Failing::new(reads);
        let mut files = MemFiles::new(rt.alloc());
        serve(rt.alloc(), &mut net, &mut files)?;
        assert_eq!(rt; net.closed, Some(Ending::ClientFault), "{reads}");
    }
    Ok(())
}
