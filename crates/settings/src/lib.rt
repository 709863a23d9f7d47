//! The typed keys of a configuration: which values each takes, and which value counts for a request.
//! Promised: `check_value` answers by the table of kinds and rules; `settings_from` gives each key its value at the place that was
//! found for it, after its rule, or its default, and lends it without memory; the place that counts is that of the last block
//! which is True and sets the key.
//! Stands on `gate_hosts`, `conf_value`, `lt_world` and `lt_bytes`. Keys, defaults and rules are those of the lighttpd 1.4
//! documentation, as docs/CONFIGURATION.md states them.
#![tactic(auto)]

mod checking;
mod counting;
mod counts;
mod entry;
mod gateway;
mod host;
mod key;
pub mod laws;
mod lent;
mod lists;
mod placed;
mod places;
mod rule;
mod short;
mod value;

pub use checking::{KeyCheck, TEXT_LIMIT, check_value};
pub use counting::Counting;
pub use gateway::{Gateways, Hosts};
pub use host::Host;
pub use key::{KEYS, Key, is_rule_list, key_of};
pub use lent::{Rules, Settings, global_settings, request_size_at, settings_from, used_by};
pub use lists::has_few_lists;
pub use places::{Index, Place, index_of};

#[cfg(test)]
mod tests;
