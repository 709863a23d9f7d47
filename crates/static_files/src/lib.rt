//! Files of a document root, in full: where a path leads, index names, media types, dates, byte ranges, locations.
//! Promised: each call is its definition in `specs/`: the ranges of RFC 9110, section 14, If-Modified-Since and
//! Last-Modified by a calendar that is proved day by day, and one `find` for each index name that is tried.
//! What is answered with them, and in which order, is the caller's.
//! Stands on `lt_bytes`, `lt_world`, `conf_value`, and `httpdate` and `percent_encoding` of the kit.
#![tactic(auto)]

mod byte_ranges;
mod dates;
pub mod laws;
mod locations;
mod media_types;
mod places;
mod texts;
mod type_index;
mod type_tables;

pub use byte_ranges::{Range, ranges};
pub use dates::{fresh, last_modified};
pub use locations::{is_excluded, location};
pub use media_types::mime;
pub use places::{Place, find_file, map_path};
pub use type_index::TypeIndex;
pub use type_tables::TypeTables;
