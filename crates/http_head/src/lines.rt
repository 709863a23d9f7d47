//! The lines of a head, before it is parsed.
ghost use Rattle.std.specs.Prelude.{◌≡◌, ◌≤◌, ◌==◌, length};
ghost use Rattle.std.specs.List.{before_first};
ghost use Rattle.std.specs.Str.Lines.{strip_carriage_return};
ghost use Rattle.http_head.specs.Lines.{empty_line, after_blank, lines_to_end, field_lines, start_line, is_other_version, ends_in_other_version};

/// The length of the empty line at the front, LF or CR LF; 0 where none is there.
fn empty_line(bytes: &[u8]) -> usize
    ensures { result ≡ empty_line bytes.now }
{
    match bytes {
        [b'\n', ..] => 1,
        [b'\r', b'\n', ..] => 2,
        _ => 0,
    }
}

/// The bytes without the empty lines at the front.
pub(crate) fn after_blank(bytes: &[u8]) -> &[u8]
    ensures value { result.now ≡ after_blank bytes.now }
    ensures within { length result.now ≤ length bytes.now }
{
    let mut rest = bytes;
    loop {
        let n = empty_line(rest);
        if n == 0 {
            return rest;
        }
        rest = &rest[n..];
    }
}

/// From a byte of the start line on, how many lines come between it and the first empty line.
fn lines_to_end(bytes: &[u8]) -> usize
    ensures { result ≡ lines_to_end bytes.now }
{
    let mut count = 0;
    for i in 0..bytes.len() {
        if bytes[i] == b'\n' {
            if empty_line(&bytes[i + 1..]) > 0 {
                return count;
            }
            count += 1;
        }
    }
    count
}

/// How many field lines the head has.
pub(crate) fn field_lines(bytes: &[u8]) -> usize
    ensures { result ≡ field_lines bytes.now }
{
    lines_to_end(after_blank(bytes))
}

/// The start line, without its line end.
pub(crate) fn start_line(bytes: &[u8]) -> &[u8]
    ensures { result.now ≡ start_line bytes.now }
{
    without_return(first_line(after_blank(bytes)))
}

fn first_line(bytes: &[u8]) -> &[u8]
    ensures { result.now ≡ before_first (λ b. b == 10) bytes.now }
{
    let length = bytes
        .iter()
        .position(|b| *b == b'\n')
        .unwrap_or(bytes.len());
    &bytes[..length]
}

fn without_return(line: &[u8]) -> &[u8]
    ensures { result.now ≡ strip_carriage_return line.now }
{
    match line {
        [before @ .., b'\r'] => before,
        _ => line,
    }
}

/// Whether eight bytes are a version other than 1.0 and 1.1.
fn is_other_version(version: &[u8]) -> bool
    requires { length version.now ≡ 8 }
    ensures { result ≡ is_other_version version.now }
{
    &version[..5] == b"HTTP/".as_slice()
        && version[5].is_ascii_digit()
        && version[6] == b'.'
        && version[7].is_ascii_digit()
        && !(version[5] == b'1' && version[7] <= b'1')
}

/// Whether the line ends in a version other than 1.0 and 1.1.
pub(crate) fn ends_in_other_version(line: &[u8]) -> bool
    ensures { result ≡ ends_in_other_version line.now }
{
    line.len() >= 8 && is_other_version(&line[line.len() - 8..])
}
