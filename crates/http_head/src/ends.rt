//! Where a head ends.
ghost use Rattle.std.specs.Prelude.{◌≡◌, length};
ghost use Rattle.http_head.specs.Ends.{head_end, IsWithin};

use crate::scan::HeadScan;

/// Where the head at the front of some bytes ends.
#[derive(Clone, Copy, Debug, PartialEq, Eq)]
pub enum HeadEnd {
    /// Behind so many bytes, with the empty lines before the head and the one that ends it.
    At(usize),
    /// It may end once more bytes are there.
    NotYet,
    /// It has not ended within the limit.
    TooLarge,
}

/// Where the head at the front ends, or that it is not there yet, or too large.
pub fn head_end(bytes: &[u8]) -> HeadEnd
    ensures value { result ≡ head_end bytes.now }
    ensures within { IsWithin (length bytes.now) result }
{
    HeadScan::new().see(bytes).end()
}
