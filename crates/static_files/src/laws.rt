//! What the definitions come to, in the subject's own words: each law is the contract of a function.
ghost use Rattle.std.specs.Prelude.{◌≡◌, ◌≤◌, ◌↔◌, ℕ, List, suc, Some, None, codes, true};
ghost use Rattle.httpdate.specs.Date.{parse_secs};
ghost use Rattle.static_files.specs.declared.byte_ranges.Range.TheVariants as range;
ghost use Rattle.static_files.specs.Calendar.{day_at, day_after, IsDay};
ghost use Rattle.static_files.specs.Dates.{fresh, last_modified};
ghost use Rattle.static_files.specs.Ranges.{ranges, LiesIn};

/// A range that is satisfied has a byte and lies in the file.
pub fn a_range_lies_in_the_file()
    ensures { (value : List ℕ) (size : ℕ) → LiesIn (ranges value size) size }
{}

/// The examples of RFC 9110, section 14.1.2, of a representation of 10,000 bytes. Two ranges are ignored.
pub fn the_examples_of_the_standard()
    ensures first_500 { ranges (codes "bytes=0-499") 10000 ≡ range.Part 0 500 }
    ensures second_500 { ranges (codes "bytes=500-999") 10000 ≡ range.Part 500 500 }
    ensures final_500 { ranges (codes "bytes=-500") 10000 ≡ range.Part 9500 500 }
    ensures from_9500 { ranges (codes "bytes=9500-") 10000 ≡ range.Part 9500 500 }
    ensures first_and_last { ranges (codes "bytes=0-0,-1") 10000 ≡ range.Whole }
{}

/// Each day is one of the Gregorian calendar: by the rule of leap years and the lengths of months as many days lie
/// before it, from 1 January 1970 on, as its number says.
pub fn each_day_is_of_the_calendar()
    ensures { (days : ℕ) → IsDay days (day_at days) }
{}

/// What is written is read as the same second, and left out exactly from the year 10000 on.
pub fn dates_are_read_back()
    ensures read { (time : ℕ) (text : List ℕ) → last_modified time ≡ Some text → parse_secs text ≡ Some time }
    ensures left_out { (time : ℕ) → (last_modified time ≡ None) ↔ (253402300800 ≤ time) }
{}
