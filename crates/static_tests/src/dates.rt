//! Dates: each day from 1970 to 9999, and the three forms that are read.
use static_files::{fresh, last_modified};

/// A year's days by month, by the rule of leap years.
fn days_in(year: u64, month: usize) -> u64 {
    let leap = year % 4 == 0 && (year % 100 != 0 || year % 400 == 0);
    match month {
        1 => { if leap { 29 } else { 28 } }
        3 | 5 | 8 | 10 => 30,
        _ => 31,
    }
}

const MONTHS: [[u8; 3]; 12] = [
    *b"Jan", *b"Feb", *b"Mar", *b"Apr", *b"May", *b"Jun", *b"Jul", *b"Aug", *b"Sep", *b"Oct",
    *b"Nov", *b"Dec",
];

/// From a Thursday on, as which 1970 began.
const WEEK: [[u8; 3]; 7] = [
    *b"Thu", *b"Fri", *b"Sat", *b"Sun", *b"Mon", *b"Tue", *b"Wed",
];

fn digit(n: u64) -> u8 {
    b'0' + (n % 10) as u8
}

/// The last second of a day, as a date.
fn night(days: u64, year: u64, month: usize, day: u64) -> [u8; 29] {
    let [w, x, y] = WEEK[(days % 7) as usize];
    let [m, n, o] = MONTHS[month % 12];
    let mut text = *b"Www, dd Mmm yyyy 23:59:59 GMT";
    text[0] = w;
    text[1] = x;
    text[2] = y;
    text[5] = digit(day / 10);
    text[6] = digit(day);
    text[8] = m;
    text[9] = n;
    text[10] = o;
    text[12] = digit(year / 1000);
    text[13] = digit(year / 100);
    text[14] = digit(year / 10);
    text[15] = digit(year);
    text
}

#[test]
fn each_day_until_the_year_10000_is_written_and_read(rt: HostRuntime) {
    let mut days: u64 = 0;
    for year in 1970..10_000u64 {
        for month in 0..12usize {
            for day in 0..days_in(year, month) {
                let time = days.wrapping_mul(86_400).wrapping_add(86_399);
                let text = night(days, year, month, day.wrapping_add(1));
                assert!(rt; last_modified(time) == Some(text));
                if day == 0 {
                    assert!(rt; fresh(&text, time) && !fresh(&text, time.wrapping_add(1)));
                }
                days = days.wrapping_add(1);
            }
        }
    }
    assert_eq!(rt; days, 2_932_897);
    assert!(rt; last_modified(253_402_300_799) == Some(*b"Fri, 31 Dec 9999 23:59:59 GMT"));
    assert!(rt; last_modified(253_402_300_800).is_none() && last_modified(u64::MAX).is_none());
    assert!(rt; last_modified(4_107_542_400) == Some(*b"Mon, 01 Mar 2100 00:00:00 GMT"));
    assert!(rt; last_modified(4_107_542_399) == Some(*b"Sun, 28 Feb 2100 23:59:59 GMT"));
    assert!(rt; last_modified(951_782_400) == Some(*b"Tue, 29 Feb 2000 00:00:00 GMT"));
}

#[test]
fn a_date_in_each_form_is_compared(rt: HostRuntime) {
    for text in b"Sun, 06 Nov 1994 08:49:37 GMT|Sunday, 06-Nov-94 08:49:37 GMT|Sun Nov  6 08:49:37 1994".split(
        |byte| *byte == b'|',
    ) {
        assert!(rt; fresh(text, 784_111_777) && fresh(text, 0), "{text:?}");
        assert!(rt; !fresh(text, 784_111_778), "{text:?}");
    }
    for text in b"|784111777|Mon, 06 Nov 1994 08:49:37 GMT|Mon, 29 Feb 2100 00:00:00 GMT|Sat, 29 Feb 2200 00:00:00 GMT|Sun, 06 Nov 1994 08:49:37".split(
        |byte| *byte == b'|',
    ) {
        assert!(rt; !fresh(text, 0), "{text:?}");
    }
}
