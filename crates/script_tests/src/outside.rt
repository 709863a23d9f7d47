//! Each call in memory with ample memory, and the cases that no clause shows.
use lt_world::{
    Fault, Fetched, FileCall, Files, Found, MemFiles, MemSink, MemTexts, Opened, Owner, Sink, Texts,
};
use std::test::Fail;

const OWNER: Owner = Owner {
    conn: 3,
    request: 1,
};

// What stands at a path.
fn found(files: &mut MemFiles, path: &[u8]) -> Found {
    files.find(OWNER, path)
}

#[test]
fn a_path_is_what_the_last_call_made_of_it(rt: HostRuntime) -> Result<(), Fail> {
    let mut files = MemFiles::new(rt.alloc());
    assert_eq!(rt; found(&mut files, b"/"), Found::Missing);
    files.add_file(b"/srv/d", 5, b"gone")?;
    files.add_file(b"/srv/d/a.txt", 7, b"hello")?;
    files.add_dir(b"/srv/e")?;
    files.add_file(b"/srv/e", 9, b"")?;
    for path in b"/ /srv /srv/ /srv/d /srv/d/".split(|byte| *byte == b' ') {
        assert_eq!(rt; found(&mut files, path), Found::Directory, "{path:?}");
    }
    for path in b"|/srv/d/a.txt/|/srv/e/|/sr".split(|byte| *byte == b'|') {
        assert_eq!(rt; found(&mut files, path), Found::Missing, "{path:?}");
    }
    assert_eq!(rt;
        found(&mut files, b"/srv/d/a.txt"),
        Found::File { size: 5, time: 7 }
    );
    assert_eq!(rt;
        found(&mut files, b"/srv/e"),
        Found::File { size: 0, time: 9 }
    );
    Ok(())
}

// Finds, opens, reads and releases the file at a path, if it has as many bytes as the buffer.
fn read_whole<F: Files>(files: &mut F, path: &[u8], buf: &mut [u8]) -> Option<Result<(), Fault>> {
    let Found::File { size, time: _ } = files.find(OWNER, path) else {
        return None;
    };
    if size != buf.len() as u64 {
        return None;
    }
    let Opened::File {
        file,
        size: _,
        time: _,
    } = files.open(OWNER, path)
    else {
        return None;
    };
    let read = files.read_at(OWNER, file, 0, buf);
    files.release(file);
    Some(read)
}

#[test]
fn planned_calls_of_files_fail_and_no_others(rt: HostRuntime) -> Result<(), Fail> {
    let mut files = MemFiles::new(rt.alloc());
    files.add_file(b"/a", 0, b"hello")?;
    files.plan(FileCall::Find, 1)?;
    files.plan(FileCall::Open, 0)?;
    files.plan(FileCall::Read, 0)?;
    let mut buf = *b".....";
    assert_eq!(rt; read_whole(&mut files, b"/a", &mut buf), None);
    assert_eq!(rt; read_whole(&mut files, b"/a", &mut buf), None);
    assert_eq!(rt; read_whole(&mut files, b"/a", &mut buf), Some(Err(Fault)));
    assert_eq!(rt; &buf, b".....");
    assert_eq!(rt; read_whole(&mut files, b"/a", &mut buf), Some(Ok(())));
    assert_eq!(rt; &buf, b"hello");
    Ok(())
}

#[test]
fn planned_calls_of_texts_fail_where_the_text_is_there(rt: HostRuntime) -> Result<(), Fail> {
    let mut texts = MemTexts::new(rt.alloc());
    texts.add(b"K", b"old")?;
    texts.add(b"K", b"abc")?;
    for nth in 0..3 {
        texts.plan(nth)?;
    }
    assert_eq!(rt; shown(&texts.fetch(b"L", 9)), b"missing".as_slice());
    assert_eq!(rt; shown(&texts.fetch(b"K", 2)), b"long".as_slice());
    assert_eq!(rt; shown(&texts.fetch(b"K", 3)), b"failed".as_slice());
    assert_eq!(rt; shown(&texts.fetch(b"K", 3)), b"abc".as_slice());
    Ok(())
}

// The text, or the name of the answer.
fn shown(fetched: &Fetched) -> &[u8] {
    match fetched {
        Fetched::Text(text) => text.bytes(),
        Fetched::Missing => b"missing",
        Fetched::Long => b"long",
        Fetched::Failed => b"failed",
        Fetched::NoMemory => b"memory",
    }
}

#[test]
fn a_sink_fails_as_planned_and_when_it_is_full(rt: HostRuntime) -> Result<(), Fail> {
    let mut sink = MemSink::new(rt.alloc(), 4)?;
    sink.plan(0);
    sink.plan(1);
    assert_eq!(rt; sink.write(b"ab"), Ok(2));
    assert_eq!(rt; sink.write(b"cd"), Err(Fault));
    assert_eq!(rt; sink.write(b"cde"), Ok(2));
    assert_eq!(rt; sink.write(b"e"), Err(Fault));
    assert_eq!(rt; sink.write(b""), Ok(0));
    assert_eq!(rt; sink.bytes(), b"abcd".as_slice());
    Ok(())
}
