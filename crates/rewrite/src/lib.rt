//! The target of a request, rewritten by the rules that win on it (lighttpd's mod_rewrite).
//! Promised: the new target, and how the rewriting ends, are those of the definition in `specs/Rewriting.antt`: the
//! once list before the repeat list, the groups of the rule and of the condition around it on the present target, an
//! end at the 101st new target, which isn't read, and a refusal of one that is too long or bad.
//! Which lists win on a target is said by `Choices`.
//! Stands on `conditions` (`Matchers`, `Groups`, templates), `conf_value`, `http_target` and `lt_bytes`.
#![tactic(auto)]

mod choices;
pub mod laws;
mod next;
mod rewriting;
mod rules;

pub use choices::Choices;
pub use next::{Next, next_of};
pub use rewriting::{Rewritten, rewrite};
pub use rules::Rules;

#[cfg(test)]
mod tests;
