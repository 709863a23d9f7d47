//! Tests of the chunk queues and their buffers. Nothing here is for use.
//!
//! What no contract says: that calls succeed with ample memory, how many buffers a call makes and leaves spare, and that
//! both queues let the same bytes go.
#![tactic(auto)]

#[cfg(test)]
mod both;
#[cfg(test)]
mod buffers;
#[cfg(test)]
mod calls;
#[cfg(test)]
mod letters;
#[cfg(test)]
mod plain;
#[cfg(test)]
mod played;
#[cfg(test)]
mod pooled;
