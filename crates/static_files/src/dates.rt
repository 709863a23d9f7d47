//! When a file was changed last, as fields say it.
ghost use Rattle.std.specs.Prelude.{◌≡◌, option_map};
ghost use Rattle.static_files.specs.Dates.{fresh, last_modified};

use httpdate::HttpDate;

/// Whether the value of an If-Modified-Since field is a date that isn't before the file's time, in seconds since 1970.
pub fn fresh(value: &[u8], time: u64) -> bool
    ensures { result ≡ fresh value.now time }
{
    match HttpDate::parse_ascii(value) {
        Ok(date) => date.unix_secs() >= time,
        Err(_) => false,
    }
}

/// The value of a Last-Modified field for a file's time, in seconds since 1970; `None` from the year 10000 on.
pub fn last_modified(time: u64) -> Option<[u8; 29]>
    ensures { result ≡ last_modified time }
{
    match HttpDate::from_unix_secs(time) {
        Ok(date) => Some(date.to_bytes()),
        Err(_) => None,
    }
}
