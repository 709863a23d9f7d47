//! Groups of a match, and templates that are filled with them.
use crate::request::{HEAD, found, seen};
use conditions::{Groups, Made, Matchers, PatternMaker, RegexMaker, fill_template};
use conf_value::Op;
use http_head::read_head;
use lt_bytes::NoMemory;
use std::alloc::Global;
use std::test::Fail;

/// The groups of a rule's pattern in a text; empty ones where there is no match or no such pattern.
fn groups_in(alloc: Global, pattern: &[u8], text: &[u8]) -> Result<Groups, NoMemory> {
    let mut groups = Groups::new(alloc);
    let Made::Pattern(pattern) = RegexMaker::new(alloc).make(pattern) else {
        return Ok(groups);
    };
    let mut matchers = Matchers::new(alloc);
    let number = matchers.add(&pattern, true)?;
    matchers.find(number, text, &mut groups)?;
    Ok(groups)
}

#[test]
fn a_match_leaves_its_groups(rt: HostRuntime) -> Result<(), Fail> {
    let request = read_head(rt.alloc(), HEAD)?;
    let attrs = seen(&request, None);
    let pattern = b"(w+)\\.(x)?(ex[a-m]*)".as_slice();
    let Some((_, groups)) = found(rt.alloc(), b"HTTP", b"host", Op::Match, pattern, &attrs)? else {
        assert!(rt; false);
        return Ok(());
    };
    assert_eq!(rt; groups.get(0), b"www.exam".as_slice());
    assert_eq!(rt; groups.get(1), b"www".as_slice());
    assert_eq!(rt; groups.get(2), b"".as_slice());
    assert_eq!(rt; groups.get(3), b"exam".as_slice());
    assert_eq!(rt; groups.get(9), b"".as_slice());
    Ok(())
}

#[test]
fn signs_with_a_digit_are_filled(rt: HostRuntime) -> Result<(), Fail> {
    let own = groups_in(rt.alloc(), b"^/(..)/(.*)$", b"/ab/c")?;
    let outer = groups_in(rt.alloc(), b"(h)(i)", b"-hi-")?;
    let text = fill_template(rt.alloc(), b"/$2/%1$1%2?$0%0", &own, &outer)?;
    assert_eq!(rt; text.bytes(), b"/c/habi?/ab/chi".as_slice());
    let plain = fill_template(rt.alloc(), b"$$1%%1$a%-$3%9$", &own, &outer)?;
    assert_eq!(rt; plain.bytes(), b"$ab%h$a%-$".as_slice());
    let none = groups_in(rt.alloc(), b"z", b"/ab/c")?;
    let empty = fill_template(rt.alloc(), b"<$0%1>", &none, &Groups::new(rt.alloc()))?;
    assert_eq!(rt; empty.bytes(), b"<>".as_slice());
    Ok(())
}
