//! The truths of a chain of three branches, each with a block in it.
//!
//! By "Conditional configuration" of the lighttpd documentation: the first branch that isn't False decides what is left to
//! those behind it, and a block has nothing to say where the one around it doesn't hold.
ghost use Rattle.std.specs.Prelude.{◌≡◌, ◌<◌};
ghost use Rattle.conditions.specs.Attributes.{attributes_of};
ghost use Rattle.settings.specs.InForm.{IsInForm};
ghost use Rattle.cond_cache.specs.Kept.{AreRight, HavePatterns};

use crate::request::{HEAD, seen};
use cond_cache::RequestConds;
use conditions::{Attrs, Matchers, RegexMaker, Steps};
use conf_eval::{load, matchers};
use conf_value::{Config, Truth};
use http_head::read_head;
use lt_bytes::{NoMemory, Text};
use lt_world::MemTexts;
use std::alloc::Global;
use std::marker::Brand;
use std::sync::ledger::{Blank, Ledger};
use std::test::Fail;

/// In each row the truths of three conditions by themselves, of which U asks for the path of the file, which isn't known;
/// then those of each branch and of the block in it, whose own condition holds.
const ROWS: &[u8] =
    b"TTT TTFFFF,TTF TTFFFF,TTU TTFFFF,TFT TTFFFF,TFF TTFFFF,TFU TTFFFF,TUT TTFFFF,TUF TTFFFF,TUU TTFFFF,\
FTT FFTTFF,FTF FFTTFF,FTU FFTTFF,FFT FFFFTT,FFF FFFFFF,FFU FFFFUU,FUT FFUUUU,FUF FFUUUU,FUU FFUUUU,\
UTT UUUUUU,UTF UUUUUU,UTU UUUUUU,UFT UUUUUU,UFF UUUUUU,UFU UUUUUU,UUT UUUUUU,UUF UUUUUU,UUU UUUUUU";

fn letter(truth: Truth) -> u8 {
    match truth {
        Truth::True => b'T',
        Truth::False => b'F',
        Truth::Unset => b'U',
    }
}

/// A condition that comes to this truth for a request of a host that isn't `x`, before its file is found.
fn condition(truth: u8) -> &'static [u8] {
    match truth {
        b'T' => b"$HTTP[\"host\"] != \"x\" {",
        b'F' => b"$HTTP[\"host\"] == \"x\" {",
        _ => b"$PHYSICAL[\"path\"] == \"/p\" {",
    }
}

/// A configuration with a chain of these branches, with a block in each.
fn chain(alloc: Global, truths: &[u8]) -> Result<Text, NoMemory> {
    let mut text = Text::from_bytes(alloc, b"server.document-root = \"/\" ")?;
    let mut sign: &[u8] = b"";
    for truth in truths {
        text.push_all(sign)?;
        text.push_all(condition(*truth))?;
        text.push_all(condition(b'T'))?;
        text.push_all(b"}}")?;
        sign = b" else ";
    }
    Ok(text)
}

/// The letters of the truths of all blocks but the global one, in their order.
fn letters<L: Ledger>(
    alloc: Global,
    config: &Config,
    attrs: &Attrs<'_>,
    conds: &mut RequestConds,
    matchers: &mut Matchers<'_>,
    steps: &mut Steps<L>,
) -> Result<Text, NoMemory>
    requires form { IsInForm config.now }
    requires patterns { HavePatterns config.now.blocks matchers.old }
    requires right { AreRight config.now.blocks (attributes_of attrs.now) conds.old }
{
    let mut letters = Text::new(alloc);
    for block in 1..config.blocks.len() {
        let truth = conds.check(alloc, config, attrs, block as u32, matchers, steps)?;
        letters.push(letter(truth))?;
    }
    Ok(letters)
}

/// The same where nothing is found yet, by a count of its own.
fn first_letters<L: Ledger>(
    blank: Blank,
    alloc: Global,
    config: &Config,
    attrs: &Attrs<'_>,
    matchers: &mut Matchers<'_>,
) -> Result<Text, NoMemory>
    requires name { blank.name ≡ L.name }
    requires parts { blank.parts ≡ L.parts }
    requires some { 0 < L.parts }
    requires form { IsInForm config.now }
    requires patterns { HavePatterns config.now.blocks matchers.old }
{
    let mut steps: Steps<L> = Steps::new(blank);
    let mut conds = RequestConds::new(alloc, config)?;
    letters(alloc, config, attrs, &mut conds, matchers, &mut steps)
}

/// The same of a configuration's text.
fn loaded_letters(alloc: Global, text: &[u8], attrs: &Attrs<'_>) -> Result<Text, Fail> {
    let mut texts = MemTexts::new(alloc);
    texts.add(b"CONF", text)?;
    let loaded = load(alloc, b"CONF", &mut texts, &mut RegexMaker::new(alloc))?;
    let mut matchers = matchers(alloc, &loaded.patterns)?;
    let blank = Blank::new(1);
    Ok(first_letters::<Brand>(blank, alloc, &loaded.config, attrs, &mut matchers)?)
}

#[test]
fn the_first_branch_that_is_not_false_decides(rt: HostRuntime) -> Result<(), Fail> {
    let alloc = rt.alloc();
    let request = read_head(alloc, HEAD)?;
    let attrs = seen(&request, None);
    for row in ROWS.split(|byte| *byte == b',') {
        let mut words = row.split(|byte| *byte == b' ');
        let text = chain(alloc, words.next().unwrap_or(&[]))?;
        let found = loaded_letters(alloc, text.bytes(), &attrs)?;
        assert_eq!(rt; found.bytes(), words.next().unwrap_or(&[]));
    }
    Ok(())
}
