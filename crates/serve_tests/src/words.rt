//! Lists of words, and the line that each is.
use command_words::{Line, WordsError, read_line};
use std::alloc::Global;
use std::test::Fail;

// The line that the words of a text are, with a letter for its kind; `usage` where they are none.
fn told(alloc: Global, text: &str) -> Result<String, Fail> {
    let mut words = Vec::new(alloc);
    for word in text.split_whitespace() {
        words.push(String::from_str(alloc, word)?)?;
    }
    let told = match read_line(alloc, &words) {
        Ok(Line::Serve { conf }) => format!(in alloc; "serve {conf}")?,
        Ok(Line::Check { conf }) => format!(in alloc; "check {conf}")?,
        Ok(Line::Print { conf }) => format!(in alloc; "print {conf}")?,
        Ok(Line::Replay { conf, script }) => format!(in alloc; "replay {conf} {script}")?,
        Ok(Line::Bench { clients }) => format!(in alloc; "bench {clients}")?,
        Err(WordsError::Usage) => String::from_str(alloc, "usage")?,
        Err(WordsError::NoMemory) => String::from_str(alloc, "no memory")?,
    };
    Ok(told)
}

#[test]
fn options_stand_in_any_order(rt: HostRuntime) -> Result<(), Fail> {
    let alloc = rt.alloc();
    assert_eq!(rt; told(alloc, "-f K")?.as_str(), "serve K");
    assert_eq!(rt; told(alloc, "-D -f K")?.as_str(), "serve K");
    assert_eq!(rt; told(alloc, "-f K -D")?.as_str(), "serve K");
    assert_eq!(rt; told(alloc, "-fK")?.as_str(), "serve K");
    assert_eq!(rt; told(alloc, "-t -f K")?.as_str(), "check K");
    assert_eq!(rt; told(alloc, "-tDf K")?.as_str(), "check K");
    assert_eq!(rt; told(alloc, "-f K -D -p")?.as_str(), "print K");
    assert_eq!(rt; told(alloc, "replay -f K S")?.as_str(), "replay K S");
    assert_eq!(rt; told(alloc, "replay S -f K")?.as_str(), "replay K S");
    assert_eq!(rt; told(alloc, "bench 10000")?.as_str(), "bench 10000");
    Ok(())
}

#[test]
fn other_words_are_no_line(rt: HostRuntime) -> Result<(), Fail> {
    let alloc = rt.alloc();
    for text in "|-f|K|-f K L|-f K -f K|-t -p -f K|-t|-D -D -f K|-h|-f K --help|replay -f K|replay -f K S T|replay -D -f K S|bench|-x -f K".split(
        '|',
    ) {
        assert_eq!(rt; told(alloc, text)?.as_str(), "usage", "{text:?}");
    }
    Ok(())
}
