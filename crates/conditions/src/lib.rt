//! Conditions of a configuration: what they see of a request, and whether they hold.
//! Promised: each comparison is exactly that of its field and operator and is counted as one step; what a pattern
//! matches is a function of its text; the groups of a match are those of its definition; a template is filled exactly;
//! a maker refuses a pattern only where its count rose, and tells what it was asked.
//! Stands on `conf_value` (`Condition`, `Truth`), `lt_world` (`Address`), `http_header` (the fields), `regex` and
//! `lt_bytes`.
#![tactic(auto)]

mod attrs;
mod comparing;
mod fields;
mod groups;
mod kept;
mod made;
mod makers;
mod matchers;
mod network;
mod steps;
mod template;
mod values;

pub use attrs::Attrs;
pub use comparing::compare;
pub use fields::field_of;
pub use groups::Groups;
pub use made::{Asked, Made, MadeKind, PatternMaker};
pub use makers::{PlannedMaker, RegexMaker};
pub use matchers::Matchers;
pub use network::is_network;
pub use steps::Steps;
pub use template::fill_template;
