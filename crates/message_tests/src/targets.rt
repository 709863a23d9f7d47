//! Targets and paths, with answers from the standard.
use http_target::{TargetRefusal, authority, normal, read_target};
use std::test::Fail;

/// One case a line: a target as it is sent, its authority, its origin form, its path, its query. A
/// minus sign stands for an empty one, and an authority `.` for none.
const TARGETS: &[u8] = b"\
/ . / / -
/index.html . /index.html /index.html -
/a/b/c/./../../g . /a/b/c/./../../g /a/g -
/../../etc/passwd . /../../etc/passwd /etc/passwd -
/a/. . /a/. /a/ -
/a/b/.. . /a/b/.. /a/ -
/a/.. . /a/.. / -
/..a/.b/... . /..a/.b/... /..a/.b/... -
//a///b// . //a///b// /a/b/ -
/%61%2Db . /%61%2Db /a-b -
/%2e%2E/x . /%2e%2E/x /x -
/a%2Fb . /a%2Fb /a/b -
/a/%2F..%2fb . /a/%2F..%2fb /b -
/%252e%252e/x . /%252e%252e/x /%2e%2e/x -
/100% . /100% /100% -
/%zz . /%zz /%zz -
/p?a=1?b . /p?a=1?b /p a=1?b
/p? . /p? /p -
/p?%00/.. . /p?%00/.. /p %00/..
/p?a#f?g . /p?a#f?g /p a
/p#f?g . /p#f?g /p -
/http://h/ . /http://h/ /http:/h/ -
http://h/p?q h /p?q /p q
HtTp://user@h:80/a/../b user@h:80 /a/../b /b -
http://[::1]:8080/ [::1]:8080 / / -
http://h h / / -
http://h?q h /?q / q
http://h#f h /#f / -
http:// - / / -
http:///p - /p /p -";

/// Other forms and schemes, and control bytes in the decoded path.
const BAD_TARGETS: &[u8] =
    b"* p h:80 https://h/p ftp://h/p http:/p ttp://h/p /%00 /a%0d%0aSet-Cookie:%20a /%1f /%7F http://h/%00";

fn without_sign(word: Option<&[u8]>) -> &[u8] {
    match word {
        Some(b"-") => &[],
        Some(word) => word,
        None => &[],
    }
}

#[test]
fn a_target_is_read_as_the_standard_says(rt: HostRuntime) -> Result<(), Fail> {
    for row in TARGETS.split(|byte| *byte == b'\n') {
        let mut words = row.split(|byte| *byte == b' ');
        let sent = without_sign(words.next());
        let host = without_sign(words.next());
        let target = read_target(rt.alloc(), sent)?;
        assert_eq!(rt; authority(sent).unwrap_or(b".".as_slice()), host, "{row:?}");
        assert_eq!(rt; target.raw.bytes(), without_sign(words.next()), "{row:?}");
        assert_eq!(rt; target.path.bytes(), without_sign(words.next()), "{row:?}");
        assert_eq!(rt; target.query.bytes(), without_sign(words.next()), "{row:?}");
    }
    Ok(())
}

#[test]
fn another_form_and_a_control_byte_are_refused(rt: HostRuntime) {
    for sent in BAD_TARGETS.split(|byte| *byte == b' ') {
        let refusal = read_target(rt.alloc(), sent).err();
        assert_eq!(rt; refusal, Some(TargetRefusal::BadTarget), "{sent:?}");
    }
    assert!(rt; read_target(rt.alloc(), b"".as_slice()).is_err());
}

#[test]
fn a_path_has_a_normal_form(rt: HostRuntime) -> Result<(), Fail> {
    let text = normal(rt.alloc(), b"a/./b/../../../c/".as_slice())?;
    assert_eq!(rt; text.bytes(), b"/c/".as_slice());
    Ok(())
}
