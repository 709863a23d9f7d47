//! What makers make and refuse.
use conditions::{Made, PatternMaker, PlannedMaker, RegexMaker};
use lt_bytes::{NoMemory, Text};
use std::alloc::Global;
use std::test::Fail;

fn letter(made: &Made) -> u8 {
    match made {
        Made::Pattern(_) => b'P',
        Made::Refused => b'R',
        Made::NoMemory => b'N',
    }
}

/// The letters of what comes of texts, a blank between them.
fn letters(alloc: Global, texts: &[u8]) -> Result<Text, NoMemory> {
    let mut maker = RegexMaker::new(alloc);
    let mut letters = Text::new(alloc);
    for text in texts.split(|byte| *byte == b' ') {
        letters.push(letter(&maker.make(text)))?;
    }
    Ok(letters)
}

#[test]
fn a_text_that_is_no_regular_expression_is_refused(rt: HostRuntime) -> Result<(), Fail> {
    let made = letters(rt.alloc(), b"^/a a|b \\.php$ (a a{2 [z-a] \xff")?;
    assert_eq!(rt; made.bytes(), b"PPPRRRR".as_slice());
    Ok(())
}

#[test]
fn a_plan_refuses_its_calls_and_no_others(rt: HostRuntime) -> Result<(), Fail> {
    let mut maker = PlannedMaker::new(rt.alloc(), &[0, 2])?;
    assert_eq!(rt; letter(&maker.make(b"a")), b'R');
    assert_eq!(rt; letter(&maker.make(b"a")), b'P');
    assert_eq!(rt; letter(&maker.make(b"a")), b'R');
    assert_eq!(rt; letter(&maker.make(b"a")), b'P');
    Ok(())
}
