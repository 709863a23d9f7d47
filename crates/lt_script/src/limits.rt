//! The numbers of the format, each in its one place; `laws::limits` says them.

/// The longest script that is read, in bytes.
pub const SCRIPT_LIMIT: usize = 16_777_216;

/// The greatest number in a link's name.
pub const NAME_LIMIT: u64 = 1_000_000;

/// The greatest time of a file, in seconds since 1970: the end of the year 9999.
pub const TIME_LIMIT: u64 = 253_402_300_799;

/// The longest file that a `fill` line makes, in bytes.
pub const FILL_LIMIT: u64 = 16_777_216;

/// The most bytes that a `pour` line gives.
pub const POUR_LIMIT: u64 = 8_388_608;

/// The most bytes that one `take` lets a write take.
pub const TAKE_LIMIT: u64 = 65_536;

/// The most events of one line.
pub const COUNT_LIMIT: u64 = 4_096;

/// The greatest number of a call that a `fault` line names.
pub const FAULT_LIMIT: u64 = 1_000_000;
