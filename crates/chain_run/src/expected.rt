//! What the documentation says of each branch, in plain words.
//!
//! "Conditional configuration" of the lighttpd 1.4 documentation, and docs/CONFIGURATION.md: a block holds where the one around it
//! does, no earlier branch of its chain does, and its own condition is true. What isn't known yet is neither true nor false.

use crate::branch::{Branch, Test};
use conf_value::Truth;

/// What conditions ask of a request.
#[derive(Clone, Copy)]
pub struct Asked {
    pub host: &'static [u8],
    pub url: &'static [u8],
    pub query: &'static [u8],
    /// The path of the file, once it is known.
    pub path: Option<&'static [u8]>,
}

fn truth_of(holds: bool) -> Truth {
    if holds { Truth::True } else { Truth::False }
}

/// The truth of a condition by itself.
fn truth_of_test(test: Test, asked: Asked) -> Truth {
    match test {
        Test::HostIsA => truth_of(asked.host == b"a".as_slice()),
        Test::HostIsNotA => truth_of(asked.host != b"a".as_slice()),
        Test::UrlIsA => truth_of(asked.url == b"/a".as_slice()),
        Test::UrlBeginsWithA => truth_of(asked.url.starts_with(b"/a")),
        Test::QueryIsQ => truth_of(asked.query == b"q".as_slice()),
        Test::PathIsA => match asked.path {
            Some(path) => truth_of(path == b"/srv/a".as_slice()),
            None => Truth::Unset,
        },
        Test::PathEndsInB => match asked.path {
            Some(path) => truth_of(path.ends_with(b"b")),
            None => Truth::Unset,
        },
        Test::Nothing => Truth::True,
    }
}

/// The truth of a branch, by those of the branches that opened before it, each with its truth.
pub fn truth_of_branch(branch: Branch, asked: Asked, before: &[(Branch, Truth)]) -> Truth {
    // The block around it is the last one that opened one level up; around the outermost there is the global one.
    let mut around = Truth::True;
    // What the branches of its chain decide, the first of them that isn't False.
    let mut decided = Truth::False;
    for (other, truth) in before {
        if other.depth < branch.depth {
            around = *truth;
            decided = Truth::False;
        }
        if other.depth == branch.depth {
            if other.begins {
                decided = Truth::False;
            }
            if decided == Truth::False {
                decided = *truth;
            }
        }
    }
    if around != Truth::True {
        return around;
    }
    if branch.begins || decided == Truth::False {
        return truth_of_test(branch.test, asked);
    }
    if decided == Truth::True {
        Truth::False
    } else {
        Truth::Unset
    }
}

/// The number of the last branch that holds and sets the tag, from 1; 0 is that of the global block.
pub fn winner(branches: &[(Branch, Truth)]) -> u64 {
    let mut winner = 0u64;
    let mut number = 0u64;
    for (branch, truth) in branches {
        number = number.saturating_add(1);
        if branch.sets && *truth == Truth::True {
            winner = number;
        }
    }
    winner
}
