//! Tests of files in full: byte ranges, dates, media types, index names, locations, and what a request is answered for
//! a file. Nothing here is for use.
//!
//! Expectations are spelled by hand from RFC 9110 and lighttpd's documentation; the days are counted by the rule of leap
//! years as a test writes it.
#![tactic(auto)]

#[cfg(test)]
mod answers;
#[cfg(test)]
mod dates;
#[cfg(test)]
mod paths;
#[cfg(test)]
mod ranges;
