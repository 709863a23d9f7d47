//! The settings of a request, and the rules that win on its target, by the conditions of a configuration.
//! Promised: the settings are those of the blocks that hold on the present attributes; the lists of rules are those that
//! win on a target, each with the groups of its block's own condition; only blocks that set a wanted key are asked for,
//! the last first, and no condition is compared twice on the same attributes. Settings are lent from the configuration.
//! Stands on `settings`, `cond_cache`, `conditions`, `rewrite`, `http_head`, `http_target`, `conf_value`, `lt_world` and
//! `lt_bytes`.
#![tactic(auto)]

mod attributes;
mod counting;
mod lists;
mod rules;
mod values;
mod winning;

pub use attributes::{Arrival, attrs_of};
pub use lists::{RequestLists, is_rewritten_now, rewrite_now};
pub use values::{SettingsNow, request_size_now, settings_now};
