//! What a request gets: the settings that count for it, the calls on files that decide it, and the replies that the
//! server spells itself.
//! Promised: `plan` is the first plan of `server_model` for the request, by just the calls on files that it names; the
//! limit of a body and the settings of a refused request are those of its head; no condition is compared twice on the
//! same attributes, from the first question about a request to its plan; each reply is spelled as `server_model` defines
//! it. Settings are lent from the configuration.
//! Stands on `request_settings`, `settings`, `cond_cache`, `conditions`, `rewrite`, `static_files`, `file_reply`,
//! `server_model`, `http_head`, `http_target`, `http_reply`, `conf_value`, `lt_world` and `lt_bytes`.
#![tactic(auto)]

mod chosen;
mod directory;
mod file;
mod form;
mod limits;
mod looking;
mod opening;
mod planned;
mod planner;
mod replies;
mod target;

pub use chosen::{Chosen, Content};
pub use form::Form;
pub use planner::Planner;
pub use replies::REPLY_LIMIT;
pub use request_settings::Arrival;
