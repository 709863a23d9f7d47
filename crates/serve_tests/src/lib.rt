//! Tests of `lt_serve` over the net of a script and files in memory, and of `command_words`. Nothing here is for use.
#![tactic(auto)]

#[cfg(test)]
mod serving;
#[cfg(test)]
mod words;
