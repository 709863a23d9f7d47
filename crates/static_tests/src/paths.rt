//! Where a path leads: locations, excluded extensions, media types and index names.
use conf_value::{Pair, Value};
use lt_bytes::{List, NoMemory, Text};
use lt_world::{FileCall, Files, MemFiles, Owner};
use static_files::{Place, TypeIndex, find_file, is_excluded, location, map_path, mime};
use std::alloc::Global;
use std::test::Fail;

/// An array of texts without keys, a bar between them, behind a number, which counts for nothing.
fn texts(alloc: Global, words: &[u8]) -> Result<List<Pair>, NoMemory> {
    let mut pairs = List::new(alloc);
    pairs.push(Pair {
        key: None,
        value: Value::Number(1),
    })?;
    for word in words.split(|byte| *byte == b'|') {
        pairs.push(Pair {
            key: None,
            value: Value::Text(Text::from_bytes(alloc, word)?),
        })?;
    }
    Ok(pairs)
}

#[test]
fn a_location_is_escaped_and_an_extension_is_excluded(rt: HostRuntime) -> Result<(), Fail> {
    let physical = map_path(rt.alloc(), b"/srv".as_slice(), b"/d/".as_slice())?;
    assert_eq!(rt; physical.bytes(), b"/srv/d/".as_slice());
    let plain = location(
        rt.alloc(),
        b"/a-._~!$&'()*+,;=:@Z9".as_slice(),
        b"".as_slice(),
    )?;
    assert_eq!(rt; plain.bytes(), b"/a-._~!$&'()*+,;=:@Z9/".as_slice());
    let escaped = location(
        rt.alloc(),
        b"/a b%\"<>?#[\\]^`{|}\xC3\xA4".as_slice(),
        b"q=1?%41".as_slice(),
    )?;
    assert_eq!(rt;
        escaped.bytes(),
        b"/a%20b%25%22%3C%3E%3F%23%5B%5C%5D%5E%60%7B%7C%7D%C3%A4/?q=1?%41".as_slice()
    );
    let extensions = texts(rt.alloc(), b".php|.pl")?;
    let extensions = extensions.as_slice();
    assert!(rt; is_excluded(extensions, b"/a.pl") && is_excluded(extensions, b".php"));
    assert!(rt; !is_excluded(extensions, b"/a.php5") && !is_excluded(extensions, b"hp"));
    Ok(())
}

fn pair(alloc: Global, key: &[u8], value: &[u8]) -> Result<Pair, Fail> {
    Ok(Pair {
        key: Some(Text::from_bytes(alloc, key)?),
        value: Value::Text(Text::from_bytes(alloc, value)?),
    })
}

#[test]
fn a_media_type_is_that_of_the_longest_end(rt: HostRuntime) -> Result<(), Fail> {
    let mut types = List::new(rt.alloc());
    for row in b".gz a|.tar.gz b|Makefile c|.html d|.html e".split(|byte| *byte == b'|') {
        let mut words = row.split(|byte| *byte == b' ');
        let key = words.next().unwrap_or(b"".as_slice());
        types.push(pair(rt.alloc(), key, words.next().unwrap_or(b"".as_slice()))?)?;
    }
    types.push(Pair {
        key: None,
        value: Value::Number(1),
    })?;
    assert_eq!(rt; mime(types.as_slice(), b"/x.tar.gz"), b"b".as_slice());
    assert_eq!(rt; mime(types.as_slice(), b"/x.gz"), b"a".as_slice());
    assert_eq!(rt; mime(types.as_slice(), b"/d/Makefile"), b"c".as_slice());
    assert_eq!(rt; mime(types.as_slice(), b"/.html"), b"d".as_slice());
    assert_eq!(rt;
        mime(types.as_slice(), b"/html"),
        b"application/octet-stream".as_slice()
    );
    types.push(pair(rt.alloc(), b"".as_slice(), b"f".as_slice())?)?;
    assert_eq!(rt; mime(types.as_slice(), b"/html"), b"f".as_slice());
    let index = TypeIndex::new(rt.alloc(), types.as_slice())?;
    assert_eq!(rt; index.mime(b"/x.tar.gz"), b"b".as_slice());
    assert_eq!(rt; index.mime(b"/d/Makefile"), b"c".as_slice());
    assert_eq!(rt; index.mime(b"/.html"), b"d".as_slice());
    assert_eq!(rt; index.mime(b"/html"), b"f".as_slice());
    Ok(())
}

const OWNER: Owner = Owner {
    conn: 0,
    request: 0,
};

/// 200 where a directory leads to this file, else the status that is answered.
fn led_to<F: Files>(
    alloc: Global,
    files: &mut F,
    index: &[Pair],
    path: &[u8],
    file: &[u8],
) -> Result<u16, NoMemory> {
    let physical = map_path(alloc, b"/srv", path)?;
    match find_file(alloc, files, OWNER, path, physical.bytes(), index) {
        Ok(Place::File { path, physical: _ }) => Ok(if path.bytes() == file { 200 } else { 0 }),
        Ok(Place::Status(status)) => Ok(status),
        Err(NoMemory) => Err(NoMemory),
    }
}

/// What two directories lead to, and the first once more.
fn statuses<F: Files>(alloc: Global, files: &mut F) -> Result<[u16; 3], NoMemory> {
    let names = texts(alloc, b"index.php|index.html")?;
    let index = names.as_slice();
    let first = led_to(alloc, files, index, b"/d/", b"/d/index.html")?;
    let other = led_to(alloc, files, index, b"/e/", b"/e/index.html")?;
    let again = led_to(alloc, files, index, b"/d/", b"/d/index.html")?;
    Ok([first, other, again])
}

#[test]
fn a_directory_leads_to_its_first_index_name_with_a_file(rt: HostRuntime) -> Result<(), Fail> {
    let mut files = MemFiles::new(rt.alloc());
    files.add_dir(b"/srv/d/index.php")?;
    files.add_file(b"/srv/d/index.html", 0, b"x")?;
    files.plan(FileCall::Find, 4)?;
    assert_eq!(rt; statuses(rt.alloc(), &mut files)?, [200, 403, 500]);
    Ok(())
}
