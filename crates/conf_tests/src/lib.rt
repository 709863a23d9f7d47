//! Tests of configuration text, its tokens, its tree and what is loaded of it. Nothing here is for use.
//!
//! Each row is a text with what it is read as, or the line at which it is refused.
#![tactic(auto)]

#[cfg(test)]
mod lexing;
#[cfg(test)]
mod loading;
#[cfg(test)]
mod printing;
