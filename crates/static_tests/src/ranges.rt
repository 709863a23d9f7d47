//! The bytes that a Range field asks for, by RFC 9110, section 14.
use lt_bytes::{Number, Text, read_decimal};
use static_files::{Range, ranges};
use std::test::Fail;

/// One value a line behind `bytes=`, and what it asks of files of 0, 1, 300 and 10,000 bytes: `*` for the whole file,
/// `-` where no byte is in the range, else the first byte and how many.
const RANGES: &[u8] = b"\
0-0 - 0+1 0+1 0+1
-0 - - - -
-1 * 0+1 299+1 9999+1
5-2 * * * *
0- - 0+1 0+300 0+10000
299-299 - - 299+1 299+1
299-300 - - 299+1 299+2
300-300 - - - 300+1
299- - - 299+1 299+9701
300- - - - 300+9700
1- - - 1+299 1+9999
-300 * 0+1 0+300 9700+300
-301 * 0+1 0+300 9699+301
0-499 - 0+1 0+300 0+500
500-999 - - - 500+500
9500- - - - 9500+500
-500 * 0+1 0+300 9500+500
0-999999999999999999 - 0+1 0+300 0+10000
0-1000000000000000000 * * * *
000000000000000001-1 - - 1+1 1+1
0000000000000000001-1 * * * *
999999999999999999- - - - -
-9999999999999999999 * * * *
0-0,-1 * * * *
500-600,601-999 * * * *
0 * * * *
- * * * *
a-1 * * * *
0-b * * * *
0-1-2 * * * *
+0-1 * * * *";

pub(crate) fn number(digits: &[u8]) -> u64 {
    match read_decimal(digits) {
        Number::Value(n) => n,
        Number::NotANumber => u64::MAX,
        Number::Overflow => u64::MAX,
    }
}

pub(crate) fn range(word: &[u8]) -> Range {
    let mut parts = word.split(|byte| *byte == b'+');
    let start = parts.next().unwrap_or(b"".as_slice());
    match parts.next() {
        Some(len) => Range::Part {
            start: number(start),
            len: number(len),
        },
        None => {
            if start == b"*".as_slice() {
                Range::Whole
            } else {
                Range::Unsatisfiable
            }
        }
    }
}

#[test]
fn a_range_is_what_the_standard_says(rt: HostRuntime) -> Result<(), Fail> {
    for row in RANGES.split(|byte| *byte == b'\n') {
        let mut words = row.split(|byte| *byte == b' ');
        let mut value = Text::from_bytes(rt.alloc(), b"bytes=")?;
        value.push_all(words.next().unwrap_or(b"".as_slice()))?;
        for (size, word) in [0u64, 1, 300, 10_000].iter().zip(words) {
            assert_eq!(rt; ranges(value.bytes(), *size), range(word), "{row:?} {size}");
        }
    }
    for other in b"|0-0|bytes 0-0|bytes=|Bytes=0-0|lines=0-0|bytes=0-0 | bytes=0-0".split(
        |byte| *byte == b'|',
    ) {
        assert_eq!(rt; ranges(other, 300), Range::Whole, "{other:?}");
    }
    Ok(())
}
