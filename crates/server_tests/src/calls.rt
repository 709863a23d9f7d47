//! The program's calls: the text of each status, and a write that fails in mid-report.
use conditions::RegexMaker;
use conf_eval::{ConfFault, ConfKind};
use lt_commands::{Explanation, Status, answer};
use lt_world::{MemSink, MemTexts};
use std::alloc::Global;
use std::test::Fail;

#[test]
fn a_status_has_its_number_and_its_text(rt: HostRuntime) -> Result<(), Fail> {
    let statuses = [
        Status::Done,
        Status::Conf(ConfFault {
            kind: ConfKind::Deep,
            file: 0,
            line: 65,
        }),
        Status::Usage,
        Status::Script { line: 7 },
        Status::TextFault,
        Status::SinkFault,
        Status::NoMemory,
        Status::Missing { text: 1 },
    ];
    let mut all = String::new(rt.alloc());
    let mut number = 0;
    for status in statuses {
        assert_eq!(rt; status.exit_number(), number);
        number = number.wrapping_add(1);
        let text = status.to_string(rt.alloc())?;
        all.push_str(text.as_str())?;
        all.push_str("\n")?;
    }
    assert_eq!(rt;
        all.as_bytes(),
        b"\nlighttpd: C17 file 0 line 65\nusage: lighttpd [-D] [-t | -p] -f CONF | replay -f CONF SCRIPT | bench NUMBER\nlighttpd: script line 7\nlighttpd: a text cannot be read\nlighttpd: output failed\nlighttpd: out of memory\nlighttpd: text 1 is missing\n".as_slice()
    );
    Ok(())
}

#[test]
fn a_fault_is_told_with_its_text_and_its_line(rt: HostRuntime) -> Result<(), Fail> {
    let explanation = Explanation {
        status: Status::Conf(ConfFault {
            kind: ConfKind::Duplicate,
            file: 0,
            line: 2,
        }),
        name: "lighttpd.conf",
        subject: "server.document-root",
    };
    let text = explanation.to_string(rt.alloc())?;
    assert_eq!(rt;
        text.as_bytes(),
        b"lighttpd.conf:2: server.document-root is set twice in this block".as_slice()
    );
    Ok(())
}

// Answers a replay with one client, whose report goes to this sink.
fn replay(alloc: Global, sink: &mut MemSink) -> Result<Status, Fail> {
    let mut words = Vec::new(alloc);
    for word in "replay -f CONF SCRIPT".split_whitespace() {
        words.push(String::from_str(alloc, word)?)?;
    }
    let mut texts = MemTexts::new(alloc);
    texts.add(b"CONF", b"server.document-root = \"/srv\"\n")?;
    texts.add(
        b"SCRIPT",
        b"lighttpd-script 1\naccept 10.0.0.5:40000 127.0.0.1:80\n",
    )?;
    Ok(answer(alloc, &words, &mut texts, &mut RegexMaker::new(alloc), sink))
}

#[test]
fn a_write_that_fails_in_mid_report_ends_the_call(rt: HostRuntime) -> Result<(), Fail> {
    let alloc = rt.alloc();
    let report = b"c0 open 0 \"\"\n".as_slice();
    let mut sink = MemSink::new(alloc, 64)?;
    assert_eq!(rt; replay(alloc, &mut sink)?, Status::Done);
    assert_eq!(rt; sink.bytes(), report);
    let mut sink = MemSink::new(alloc, 64)?;
    sink.plan(1);
    assert_eq!(rt; replay(alloc, &mut sink)?, Status::SinkFault);
    assert!(rt; report.starts_with(sink.bytes()));
    assert_ne!(rt; sink.bytes(), report);
    Ok(())
}
