//! Tests of conditions: each field with each operator, networks, sockets, joined fields, chains, groups, templates and
//! makers.
//! Nothing here is for use.
//!
//! Expectations are spelled by hand from the lighttpd documentation, "Conditional configuration" and mod_rewrite.
#![tactic(auto)]

#[cfg(test)]
mod chains;
#[cfg(test)]
mod comparing;
#[cfg(test)]
mod groups;
#[cfg(test)]
mod making;
#[cfg(test)]
mod request;
