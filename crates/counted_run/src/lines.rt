//! A report and the one that is wanted, line by line.

/// How a report stands to the one that is wanted.
#[derive(Clone, Copy, Debug, PartialEq, Eq)]
pub enum Standing {
    /// It is the same.
    Whole,
    /// Some clients were closed for want of memory, with a front of what they were to get.
    Cut,
    /// A client got something else.
    Other,
}

/// Compares two reports of the same clients.
pub fn compare(report: &[u8], wanted: &[u8]) -> Standing {
    if report == wanted {
        return Standing::Whole;
    }
    let mut others = wanted.split(|byte| *byte == b'\n');
    for line in report.split(|byte| *byte == b'\n') {
        let fits = match others.next() {
            Some(other) => line == other || is_cut(line, other),
            None => false,
        };
        if !fits {
            return Standing::Other;
        }
    }
    if others.next().is_some() {
        return Standing::Other;
    }
    Standing::Cut
}

/// Whether a client was closed for want of memory, with a front of the bytes of the other line.
fn is_cut(line: &[u8], other: &[u8]) -> bool {
    let mut words = line.splitn(4, |byte| *byte == b' ');
    let mut others = other.splitn(4, |byte| *byte == b' ');
    let client = words.next();
    let ending = words.next();
    let _count = words.next();
    let same = client == others.next();
    let _ending = others.next();
    let _count = others.next();
    match (words.next(), others.next()) {
        (Some(bytes), Some(all)) => match bytes.strip_suffix(b"\"") {
            Some(front) => same
                && ending == Some(b"no-memory".as_slice())
                && all.starts_with(front),
            None => false,
        },
        _ => false,
    }
}
