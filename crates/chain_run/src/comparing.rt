//! What the server's own parts find of a configuration that was drawn, beside what is expected.
ghost use Rattle.std.specs.Prelude.{◌≡◌, ◌<◌};
ghost use Rattle.conditions.specs.Attributes.{attributes_of};
ghost use Rattle.settings.specs.InForm.{IsInForm};
ghost use Rattle.settings.specs.Indexed.{IsIndexOf};
ghost use Rattle.cond_cache.specs.Kept.{AreRight, HavePatterns};

use crate::branch::Branch;
use crate::drawing::Drawn;
use crate::expected::{Asked, truth_of_branch, winner};
use anyhow::{Result, bail};
use cond_cache::RequestConds;
use conditions::{Attrs, Matchers, RegexMaker, Steps};
use conf_eval::{load, matchers};
use conf_value::{Config, Truth};
use http_header::{HeaderMap, HeaderValue};
use lt_bytes::{Text, decimal};
use lt_world::{Address, MemTexts};
use request_settings::settings_now;
use settings::{Index, index_of};
use std::alloc::Global;
use std::marker::Brand;
use std::sync::ledger::{Blank, Ledger};

/// What was compared: truths of blocks, and values that win.
#[derive(Clone, Copy, Debug, PartialEq, Eq)]
pub struct Counts {
    pub truths: u64,
    pub winners: u64,
}

/// Loads the configuration, and holds each truth and each winner against what is expected.
pub fn compare(alloc: Global, drawn: &Drawn, asked: &[Asked]) -> Result<Counts> {
    compare_by::<Brand>(Blank::new(1), alloc, drawn, asked)
}

fn compare_by<L: Ledger>(
    blank: Blank,
    alloc: Global,
    drawn: &Drawn,
    asked: &[Asked],
) -> Result<Counts>
    requires name { blank.name ≡ L.name }
    requires parts { blank.parts ≡ L.parts }
    requires some { 0 < L.parts }
{
    let mut steps: Steps<L> = Steps::new(blank);
    let mut texts = MemTexts::new(alloc);
    texts.add(b"CONF", drawn.text.bytes())?;
    let mut maker = RegexMaker::new(alloc);
    let Ok(loaded) = load(alloc, b"CONF", &mut texts, &mut maker) else {
        bail!("a configuration that was drawn is refused");
    };
    let mut matchers = matchers(alloc, &loaded.patterns)?;
    let index = index_of(alloc, &loaded.config)?;
    let mut counts = Counts {
        truths: 0,
        winners: 0,
    };
    for one in asked {
        let truths = compare_one(
            alloc,
            &loaded.config,
            &index,
            &drawn.branches,
            *one,
            &mut matchers,
            &mut steps,
        )?;
        counts.truths = counts.truths.saturating_add(truths);
        counts.winners = counts.winners.saturating_add(1);
    }
    Ok(counts)
}

/// Holds the winner and each truth on one request against what is expected. Answers how many truths these are.
fn compare_one<L: Ledger>(
    alloc: Global,
    config: &Config,
    index: &Index,
    branches: &[Branch],
    asked: Asked,
    matchers: &mut Matchers<'_>,
    steps: &mut Steps<L>,
) -> Result<u64>
    requires form { IsInForm config.now }
    requires index { IsIndexOf config.now.blocks index.now }
    requires patterns { HavePatterns config.now.blocks matchers.old }
    ensures matchers { matchers.new ≡ matchers.old }
{
    let fields = HeaderMap::new(alloc);
    let attrs = seen(asked, &fields);
    let expected = expected_truths(alloc, branches, asked)?;
    let mut conds = RequestConds::new(alloc, config)?;
    let now = settings_now(alloc, config, index, &attrs, &mut conds, matchers, steps)?;
    if !is_tag(alloc, now.settings.server_tag, winner(&expected))? {
        bail!("a winner differs");
    }
    let found = truths_of(alloc, config, &attrs, &mut conds, matchers, steps)?;
    if !are_equal(&found, &expected) {
        bail!("a truth differs");
    }
    Ok(expected.len() as u64)
}

/// What conditions see of a request.
fn seen<'r>(asked: Asked, fields: &'r HeaderMap<HeaderValue>) -> Attrs<'r> {
    Attrs {
        host: asked.host,
        url: asked.url,
        query: asked.query,
        method: b"GET",
        peer: Address {
            ip: [10, 1, 2, 3],
            port: 40000,
        },
        local: Address {
            ip: [127, 0, 0, 1],
            port: 80,
        },
        fields,
        physical: asked.path,
    }
}

/// The truth of each block, from what is found already where that tells it.
fn truths_of<L: Ledger>(
    alloc: Global,
    config: &Config,
    attrs: &Attrs<'_>,
    conds: &mut RequestConds,
    matchers: &mut Matchers<'_>,
    steps: &mut Steps<L>,
) -> Result<Vec<Truth>>
    requires form { IsInForm config.now }
    requires patterns { HavePatterns config.now.blocks matchers.old }
    requires right { AreRight config.now.blocks (attributes_of attrs.now) conds.old }
    ensures matchers { matchers.new ≡ matchers.old }
{
    let mut truths = Vec::new(alloc);
    for block in 0..config.blocks.len() {
        let truth = conds.check(alloc, config, attrs, block as u32, matchers, steps)?;
        truths.push(truth)?;
    }
    Ok(truths)
}

/// The branches, each with the truth that is expected of it.
fn expected_truths(
    alloc: Global,
    branches: &[Branch],
    asked: Asked,
) -> Result<Vec<(Branch, Truth)>> {
    let mut expected: Vec<(Branch, Truth)> = Vec::new(alloc);
    for branch in branches {
        let truth = truth_of_branch(*branch, asked, &expected);
        expected.push((*branch, truth))?;
    }
    Ok(expected)
}

/// The global block is True, and each other block has the truth that is expected.
fn are_equal(found: &[Truth], expected: &[(Branch, Truth)]) -> bool {
    let Some((Truth::True, others)) = found.split_first() else {
        return false;
    };
    others.len() == expected.len()
        && others
            .iter()
            .zip(expected)
            .all(|(truth, (_, other))| truth == other)
}

/// Whether a tag is that of the winner with this number.
fn is_tag(alloc: Global, tag: &[u8], winner: u64) -> Result<bool> {
    let mut wanted = Text::from_bytes(alloc, b"t")?;
    wanted.push_all(decimal(winner).bytes())?;
    Ok(tag == wanted.bytes())
}
