//! The grammar line by line, and what a script is printed as.
use lt_bytes::{NoMemory, Text};
use lt_script::{Name, ScriptError, ScriptFile, Step, parse_script, print_script};
use lt_world::Address;
use std::alloc::Global;
use std::test::Fail;

/// Lines of the grammar, at each of its limits.
const INSIDE: &[u8] = b"\
# any \xff byte

#
end c0
end c1000000
take c0 0 1
take c0 65536 4096
pour c0 1
pour c1000000 8388608
ready c0 1
ready c0 4096
rfail c0
wfail c0
fault connect 0
fault find 1000000
fault open 1
fault file 2
fault listen 0
fault wait 7
idle
dir \"/a\"
dir \"/a/\\xff\"
data c0 \"\"
data c0 \" ~\\r\\n\\\"\\\\\\x41\\xff\"
accept 0.0.0.0:0 255.255.255.255:65535
file \"/a\" 253402300799 \"\"
fill \"/\\x00/b\" 0 16777216
";

/// Lines outside the grammar, each of which is the second of a text.
const OUTSIDE: &[u8] = b"\
jump
end
 end c0
end c0 \nend c0\r
end  c0
end c1000001
end c00
end c
end g0
take c0 65537 1
take c0 1 0
take c0 1 4097
take c0 18446744073709551616 1
pour c0 0
pour c0 8388609
ready c0 0
ready c0 4097
rfail g0
wfail
fault listen
fault listen 
fault listen 00
fault wait 1000001
fault waits 0
fault  wait 0
fault read 0
fault wait 0 1
idle c0
dir \"/a/\"
dir \"/a\" 0
data c0 \"\\x4A\"
data c0 \"\t\"
data c0 \"a
data c0 \"a\"b
accept 256.0.0.0:0 0.0.0.0:0
accept 0.0.0.0:65536 0.0.0.0:0
accept 0.0.0:0 0.0.0.0:0
file \"a\" 0 \"\"
file \"/a/\" 0 \"\"
file \"/\" 0 \"\"
file \"/a\" 253402300800 \"\"
fill \"/a\" 0 16777217";

// The line that is refused, or 0 where the text is a script.
fn refused(alloc: Global, text: &[u8]) -> u32 {
    match parse_script(alloc, text) {
        Err(ScriptError::Line { number }) => number,
        _ => 0,
    }
}

// The line that is refused of a script with these lines and this end.
fn refused_after_head(alloc: Global, lines: &[u8], end: &[u8]) -> Result<u32, NoMemory> {
    let mut text = Text::from_bytes(alloc, b"lighttpd-script 1\n")?;
    text.push_all(lines)?;
    text.push_all(end)?;
    Ok(refused(alloc, text.bytes()))
}

#[test]
fn the_first_line_is_fixed(rt: HostRuntime) {
    let alloc = rt.alloc();
    assert_eq!(rt; refused(alloc, b"lighttpd-script 1\n"), 0);
    assert_eq!(rt; refused(alloc, b"lighttpd-script 1"), 1);
    assert_eq!(rt; refused(alloc, b"lighttpd-script 1 \n"), 1);
    assert_eq!(rt; refused(alloc, b"lighttpd-script 2\n"), 1);
    assert_eq!(rt; refused(alloc, b"\n"), 1);
    assert_eq!(rt; refused(alloc, b""), 1);
}

#[test]
fn the_first_line_outside_the_grammar_is_named(rt: HostRuntime) -> Result<(), Fail> {
    let alloc = rt.alloc();
    assert_eq!(rt; refused_after_head(alloc, INSIDE, b"")?, 0);
    for line in OUTSIDE.split(|byte| *byte == b'\n') {
        assert_eq!(rt; refused_after_head(alloc, line, b"\n")?, 2, "{line:?}");
    }
    assert_eq!(rt; refused_after_head(alloc, b"end c0", b"")?, 2);
    assert_eq!(rt; refused_after_head(alloc, b"end c0\n\n# c\nend\n", b"")?, 5);
    Ok(())
}

#[test]
fn a_script_has_what_its_lines_say(rt: HostRuntime) -> Result<(), Fail> {
    let text = b"\
lighttpd-script 1
end c7
file \"/a\" 5 \"\\x00\\r\"
accept 10.0.0.5:40000 127.0.0.1:80
";
    let script = parse_script(rt.alloc(), text)?;
    match script.files.as_slice() {
        [ScriptFile::Bytes { path, time, bytes }] => {
            assert_eq!(rt; path.bytes(), b"/a".as_slice());
            assert_eq!(rt; *time, 5);
            assert_eq!(rt; bytes.bytes(), b"\x00\r".as_slice());
        }
        _ => assert!(rt; false),
    }
    match script.steps.as_slice() {
        [
            Step::End {
                link: Name {
                    gate: false,
                    number: 7,
                },
            },
            Step::Accept { peer, local },
        ] => {
            assert_eq!(rt; *peer, address(10, 5, 40_000));
            assert_eq!(rt; *local, address(127, 1, 80));
        }
        _ => assert!(rt; false),
    }
    Ok(())
}

// An address whose inner octets are 0.
fn address(first: u8, last: u8, port: u16) -> Address {
    Address {
        ip: [first, 0, 0, last],
        port,
    }
}

#[test]
fn a_script_is_printed_with_its_files_first_and_then_its_faults(
    rt: HostRuntime,
) -> Result<(), Fail> {
    let alloc = rt.alloc();
    let written = b"\
lighttpd-script 1
# c
idle
fault wait 1000000
fault find 0
file \"/\\x61\" 5 \"\\x00\\r\\n\\\"\\\\ ~\\xff\"
accept 10.0.0.5:40000 127.0.0.1:80
data c0 \"\\x41\\x7f\\x0d\"

fill \"/b\" 0 7
pour c0 8388608
end c0
ready c0 4096
rfail c0
fault listen 3
take c1000000 0 1
wfail c0
fault connect 1
fault open 2
dir \"/d/\\xc3\"
fault file 4
";
    let expected = b"\
lighttpd-script 1
file \"/a\" 5 \"\\x00\\r\\n\\\"\\\\ ~\\xff\"
fill \"/b\" 0 7
dir \"/d/\\xc3\"
fault wait 1000000
fault find 0
fault listen 3
fault connect 1
fault open 2
fault file 4
idle
accept 10.0.0.5:40000 127.0.0.1:80
data c0 \"A\\x7f\\r\"
pour c0 8388608
end c0
ready c0 4096
rfail c0
take c1000000 0 1
wfail c0
";
    let script = parse_script(alloc, written)?;
    let printed = print_script(alloc, &script)?;
    assert_eq!(rt; printed.bytes(), expected.as_slice());
    let again = parse_script(alloc, printed.bytes())?;
    assert_eq!(rt; print_script(alloc, &again)?.bytes(), expected.as_slice());
    Ok(())
}
