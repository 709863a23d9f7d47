//! The truths of a configuration's blocks for one request, each condition compared at most once.
//! Promised: a truth is that of the definition, worked out afresh on the present attributes; steps rise just by the
//! blocks that were compared, of which none is compared twice until the attributes change; a block's groups are those
//! of its own match.
//! Stands on `conditions` (`compare`), `settings` (a configuration in form), `conf_value` and `lt_bytes`.
#![tactic(auto)]

mod conds;
mod finding;
pub mod laws;
mod place;

pub use conds::RequestConds;
pub use place::Place;
