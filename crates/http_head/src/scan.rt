//! How the end of a head is looked for as its bytes come, each of them once.
ghost use Rattle.std.specs.Prelude.{◌≡◌, ◌+◌, ◌≤◌, ◌<◌, ◌⊎◌, ◌++◌, ℕ, List, [], length, take, drop, true, false, option_map};
ghost use Rattle.http_head.specs.Ends.{head_end, IsWithin};
ghost use Rattle.http_head.specs.Scan.{is_ended, place_after, end_behind, IsScan};

use crate::ends::HeadEnd;
use crate::limits::HEAD_LIMIT;
use memchr::memchr;

/// What stands before the next byte. Empty lines before the head are skipped, and a line ends in CR LF or in LF alone
/// (RFC 9112, section 2.2).
#[derive(Clone, Copy)]
enum Place {
    /// Nothing but empty lines.
    Start,
    /// Nothing but empty lines, and a CR.
    StartReturn,
    /// A part of a line.
    Line,
    /// A line of the head.
    LineEnd,
    /// A line of the head, and a CR.
    LineEndReturn,
    /// The empty line that ends the head.
    Ended,
}

impl Place {
    fn is_ended(self) -> bool
        ensures { result ≡ is_ended self }
    {
        match self {
            Place::Ended => true,
            Place::Start
            | Place::StartReturn
            | Place::Line
            | Place::LineEnd
            | Place::LineEndReturn => false,
        }
    }

    // The place behind the byte.
    fn after(self, byte: u8) -> Place
        ensures { result ≡ place_after self byte }
    {
        match self {
            Place::Start => match byte {
                b'\n' => Place::Start,
                b'\r' => Place::StartReturn,
                _ => Place::Line,
            },
            Place::StartReturn => match byte {
                b'\n' => Place::Start,
                _ => Place::Line,
            },
            Place::Line => match byte {
                b'\n' => Place::LineEnd,
                _ => Place::Line,
            },
            Place::LineEnd => match byte {
                b'\n' => Place::Ended,
                b'\r' => Place::LineEndReturn,
                _ => Place::Line,
            },
            Place::LineEndReturn => match byte {
                b'\n' => Place::Ended,
                _ => Place::Line,
            },
            Place::Ended => Place::Ended,
        }
    }

    // The place behind the next byte, or behind what is there of the line, and how many bytes that is.
    fn next(self, bytes: &[u8]) -> (Place, usize)
        requires some { 0 < length bytes.now }
        requires going { is_ended self ≡ false }
        ensures further { (0 < result.1) × (result.1 ≤ length bytes.now) }
        ensures ends { (more : List ℕ) → end_behind self (bytes.now ++ more) ≡
            option_map (λ n. result.1 + n) (end_behind result.0 (drop result.1 bytes.now ++ more)) }
    {
        match self {
            Place::Line => match memchr(b'\n', bytes) {
                Some(n) => (Place::LineEnd, n + 1),
                None => (Place::Line, bytes.len()),
            },
            _ => (self.after(bytes[0]), 1),
        }
    }

    // The place behind the bytes, or where the head ends among them, and how many bytes that is.
    fn behind(self, bytes: &[u8]) -> (Place, usize)
        ensures within { result.1 ≤ length bytes.now }
        ensures some { is_ended self ≡ false → is_ended result.0 ≡ true → 0 < result.1 }
        ensures whole { (is_ended result.0 ≡ true) ⊎ (result.1 ≡ length bytes.now) }
        ensures ends { (more : List ℕ) → end_behind self (bytes.now ++ more) ≡
            option_map (λ n. result.1 + n) (end_behind result.0 more) }
    {
        let mut place = self;
        let mut at = 0;
        while at < bytes.len() && !place.is_ended() {
            let (next, n) = place.next(&bytes[at..]);
            place = next;
            at += n;
        }
        (place, at)
    }
}

/// What is remembered of the bytes at the front, so that no byte is looked at twice for the end of the head.
#[derive(Clone, Copy)]
pub struct HeadScan {
    // Bytes up to the end of the head, or up to the limit.
    seen: usize,
    place: Place,
}

impl HeadScan {
    /// Nothing was looked at.
    pub fn new() -> HeadScan
        ensures scan { IsScan [] result }
    {
        HeadScan {
            seen: 0,
            place: Place::Start,
        }
    }

    /// Looks at the bytes that follow.
    pub fn see(self, bytes: &[u8]) -> HeadScan
        ensures scan { (before : List ℕ) → IsScan before self → IsScan (before ++ bytes.now) result }
    {
        let new = first(bytes, HEAD_LIMIT.saturating_sub(self.seen));
        let (place, n) = self.place.behind(new);
        HeadScan {
            seen: self.seen + n,
            place,
        }
    }

    /// Where the head at the front ends, by the bytes that were looked at.
    pub fn end(self) -> HeadEnd
        ensures value { (bytes : List ℕ) → IsScan bytes self → result ≡ head_end bytes }
        ensures within { (bytes : List ℕ) → IsScan bytes self → IsWithin (length bytes) result }
    {
        if self.place.is_ended() {
            HeadEnd::At(self.seen)
        } else if self.seen >= HEAD_LIMIT {
            HeadEnd::TooLarge
        } else {
            HeadEnd::NotYet
        }
    }
}

fn first(bytes: &[u8], most: usize) -> &[u8]
    ensures value { result.now ≡ take most bytes.now }
{
    if bytes.len() > most {
        &bytes[..most]
    } else {
        bytes
    }
}
