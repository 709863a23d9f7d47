// The calls over a folder of the test's own: what no clause says is what the system answers.
use crate::{DiskFiles, DiskTexts};
use lt_bytes::Text;
use lt_world::{Fault, Fetched, FileId, Files, Found, Opened, Owner, Texts};
use std::alloc::Global;
use std::fs::OpenOptions;
use std::os::fd::AsRawFd;
use std::os::unix::fs::symlink;
use std::test::Fail;
use std::{env, fs, io, process};

const OWNER: Owner = Owner {
    conn: 0,
    request: 0,
};

// An empty folder under the system's folder for temporary files.
fn make_folder(rt: &HostRuntime) -> Result<String, Fail> {
    let base = env::temp_dir(rt)?;
    let base = base.as_path().as_str();
    let id = process::id(rt.process());
    let folder = format!(in rt.alloc(); "{base}/files_disk.{id}")?;
    fs::create_dir(rt, folder.as_str())?;
    Ok(folder)
}

fn path_of(alloc: Global, folder: &str, name: &[u8]) -> Result<Text, Fail> {
    let mut path = Text::from_bytes(alloc, folder.as_bytes())?;
    path.push(b'/')?;
    path.push_all(name)?;
    Ok(path)
}

// A letter for what `find` answers: a file of five bytes, a directory, nothing, a failure.
fn letter(found: Found) -> u8 {
    match found {
        Found::File { size: 5, time: _ } => b'f',
        Found::File { size: _, time: _ } => b'?',
        Found::Directory => b'd',
        Found::Missing => b'm',
        Found::Failed => b'!',
        Found::NoMemory => b'?',
    }
}

#[test]
fn a_path_names_a_regular_file_a_directory_or_nothing(rt: HostRuntime) -> Result<(), Fail> {
    let alloc = rt.alloc();
    let folder = make_folder(&rt)?;
    let folder = folder.as_str();
    for file in ["a", "\u{e9}"] {
        let path = format!(in alloc; "{folder}/{file}")?;
        fs::write(&rt, path.as_str(), "hello")?;
    }
    let sub = format!(in alloc; "{folder}/d")?;
    fs::create_dir(&rt, sub.as_str())?;
    for (to, link) in [
        ("a", "to_a"),
        ("d", "to_d"),
        ("b", "to_b"),
        ("self", "self"),
    ] {
        let link = format!(in alloc; "{folder}/{link}")?;
        symlink(&rt, to, link.as_str())?;
    }
    let rows =
        b"f a\nf \xc3\xa9\nf to_a\nf d/../a\nd \nd d\nd d/\nd to_d\nm a/\nm a/b\nm b\nm to_b\nm \xff\nm \xe9\nm a\x00\nm a\x00b\n! self".as_slice();
    let mut files = DiskFiles::new(&rt);
    for row in rows.split(|byte| *byte == b'\n') {
        let (answer, name) = row.split_at(row.len().min(2));
        let path = path_of(alloc, folder, name)?;
        let found = letter(files.find(OWNER, path.bytes()));
        assert_eq!(rt; Some(&found), answer.first(), "{row:?}");
        let opened = match files.open(OWNER, path.bytes()) {
            Opened::File {
                file: _,
                size: 5,
                time: _,
            } => b'f',
            _ => b'm',
        };
        assert_eq!(rt; opened == b'f', found == b'f', "{row:?}");
    }
    let mut long = Text::new(alloc);
    for _ in 0..256 {
        long.push(b'a')?;
    }
    let path = path_of(alloc, folder, long.bytes())?;
    assert_eq!(rt; files.find(OWNER, path.bytes()), Found::Missing);
    assert_eq!(rt; files.find(OWNER, b"/dev/null"), Found::Missing);
    assert_eq!(rt; files.open(OWNER, b"/dev/null"), Opened::Failed);
    fs::remove_dir_all(&rt, folder)?;
    Ok(())
}

// A pipe that nobody writes to: a body that opened it would wait, and the test would not end.
#[test]
fn a_pipe_is_no_file_and_is_not_waited_for(rt: HostRuntime) -> Result<(), Fail> {
    let (reader, writer) = io::pipe(&rt)?;
    let pipe = reader.as_raw_fd();
    let path = format!(in rt.alloc(); "/proc/self/fd/{pipe}")?;
    drop(writer);
    let mut files = DiskFiles::new(&rt);
    assert_eq!(rt; files.find(OWNER, path.as_bytes()), Found::Missing);
    assert_eq!(rt; files.open(OWNER, path.as_bytes()), Opened::Failed);
    Ok(())
}

fn open(files: &mut DiskFiles<&HostRuntime>, path: &Text) -> Option<FileId> {
    match files.open(OWNER, path.bytes()) {
        Opened::File {
            file,
            size: _,
            time: _,
        } => Some(file),
        _ => None,
    }
}

#[test]
fn a_range_is_read_whole_or_not_at_all(rt: HostRuntime) -> Result<(), Fail> {
    let alloc = rt.alloc();
    let folder = make_folder(&rt)?;
    let a = path_of(alloc, folder.as_str(), b"a")?;
    let name = str::from_utf8(a.bytes())?;
    fs::write(&rt, name, "hello")?;
    let mut files = DiskFiles::new(&rt);
    let first = open(&mut files, &a).ok_or("first")?;
    let second = open(&mut files, &a).ok_or("second")?;
    assert!(rt; first != second);
    let mut buf = *b"...";
    assert_eq!(rt; files.read_at(OWNER, first, 2, &mut buf), Ok(()));
    assert_eq!(rt; &buf, b"llo");
    for start in [3, 5, 6, u64::MAX] {
        assert_eq!(rt; files.read_at(OWNER, first, start, &mut buf), Err(Fault));
    }
    OpenOptions::new().write(true).open(&rt, name)?.set_len(4)?;
    assert_eq!(rt; files.read_at(OWNER, second, 2, &mut buf), Err(Fault));
    assert_eq!(rt; files.read_at(OWNER, second, 1, &mut buf), Ok(()));
    assert_eq!(rt; &buf, b"ell");
    files.release(first);
    assert_eq!(rt; files.read_at(OWNER, first, 1, &mut buf), Err(Fault));
    assert_eq!(rt; open(&mut files, &a), Some(first));
    fs::remove_dir_all(&rt, folder.as_str())?;
    assert_eq!(rt; files.read_at(OWNER, second, 0, &mut buf), Ok(()));
    assert_eq!(rt; &buf, b"hel");
    Ok(())
}

#[test]
fn a_text_is_fetched_whole_or_not_at_all(rt: HostRuntime) -> Result<(), Fail> {
    let alloc = rt.alloc();
    let folder = make_folder(&rt)?;
    let mut text = Text::new(alloc);
    for i in 0..10_000u32 {
        text.push((i % 251) as u8)?;
    }
    let path = path_of(alloc, folder.as_str(), b"t")?;
    fs::write(&rt, str::from_utf8(path.bytes())?, text.bytes())?;
    let mut texts = DiskTexts::new(&rt);
    match texts.fetch(path.bytes(), 10_000) {
        Fetched::Text(fetched) => assert!(rt; fetched.bytes() == text.bytes()),
        _ => assert!(rt; false, "no text"),
    }
    let mut answers = Text::new(alloc);
    for (name, max) in [
        (b"t".as_slice(), 9_999),
        (b"u", 1),
        (b"\xff", 1),
        (b"t\x00", 10_000),
        (b"t/x", 1),
        (b"", 1),
    ] {
        let path = path_of(alloc, folder.as_str(), name)?;
        answers.push(match texts.fetch(path.bytes(), max) {
            Fetched::Text(_) => b't',
            Fetched::Missing => b'm',
            Fetched::Long => b'l',
            Fetched::Failed => b'!',
            Fetched::NoMemory => b'?',
        })?;
    }
    assert_eq!(rt; answers.bytes(), b"lmmmm!".as_slice());
    fs::remove_dir_all(&rt, folder.as_str())?;
    Ok(())
}
