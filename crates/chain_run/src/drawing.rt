//! Configurations that a recurrence draws.
ghost use Rattle.std.specs.Prelude.{◌<◌};

use crate::branch::{Branch, Test};
use crate::draws::Draws;
use anyhow::Result;
use lt_bytes::{Text, decimal};
use std::alloc::Global;

/// A configuration: its branches in the order in which they open, and its text.
#[derive(Drop)]
pub struct Drawn {
    pub branches: Vec<Branch>,
    pub text: Text,
}

/// A configuration of so many branches.
pub fn draw_configuration(alloc: Global, draws: &mut Draws, count: u64) -> Result<Drawn> {
    let mut branches: Vec<Branch> = Vec::new(alloc);
    let mut text = Text::from_bytes(
        alloc,
        b"server.document-root = \"/srv\"\nserver.tag = \"t0\"\n",
    )?;
    let mut deepest = 0u64;
    for number in 0..count {
        let depth = 1u64.saturating_add(draws.below(deepest.saturating_add(1)));
        let before = if depth > deepest {
            None
        } else {
            last_at(&branches, depth)
        };
        let branch = drawn_branch(draws, depth, before);
        push_ends(&mut text, depth, deepest)?;
        push_begin(&mut text, branch, number.saturating_add(1))?;
        branches.push(branch)?;
        deepest = depth;
    }
    push_ends(&mut text, 1, deepest)?;
    Ok(Drawn { branches, text })
}

/// The last branch at this depth.
fn last_at(branches: &[Branch], depth: u64) -> Option<Branch> {
    let mut last = None;
    for branch in branches {
        if branch.depth == depth {
            last = Some(*branch);
        }
    }
    last
}

/// A branch at this depth, behind one at the same depth or the first in its block. A chain ends with a bare `else`.
fn drawn_branch(draws: &mut Draws, depth: u64, before: Option<Branch>) -> Branch {
    let ended = match before {
        Some(branch) => branch.test == Test::Nothing,
        None => true,
    };
    let begins = ended || draws.below(3) == 0;
    let number = draws.below(if begins { 7 } else { 9 });
    Branch {
        depth,
        begins,
        test: if number < 7 {
            Test::numbered(number)
        } else {
            Test::Nothing
        },
        sets: draws.below(4) > 0,
    }
}

/// The ends of the blocks from the deepest one up to this depth.
fn push_ends(text: &mut Text, depth: u64, deepest: u64) -> Result<()> {
    for _ in depth..deepest.saturating_add(1) {
        text.push_all(b"} ")?;
    }
    Ok(())
}

/// The beginning of a branch with this number: its condition, and what it sets.
fn push_begin(text: &mut Text, branch: Branch, number: u64) -> Result<()> {
    if !branch.begins {
        text.push_all(b"else ")?;
    }
    text.push_all(branch.test.text())?;
    text.push_all(b"{ ")?;
    if branch.sets {
        push_tag(text, number)?;
    }
    Ok(())
}

fn push_tag(text: &mut Text, number: u64) -> Result<()> {
    text.push_all(b"server.tag = \"t")?;
    text.push_all(decimal(number).bytes())?;
    text.push_all(b"\" ")?;
    Ok(())
}
