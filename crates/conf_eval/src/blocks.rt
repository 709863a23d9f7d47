//! The blocks of a configuration, and its patterns.
ghost use Rattle.std.specs.Prelude.{◌≡◌, ◌<◌, ◌≤◌, ◌^◌, ◌++◌, None, [], ◌∷◌, IfOk, OnOk, OnErr, length};
ghost use Rattle.std.specs.Option.{IsSome, option_copied};
ghost use Rattle.conditions.specs.Groups.{IsPatternOf};
ghost use Rattle.settings.specs.Checking.{check};
ghost use Rattle.settings.specs.Indexed.{lists_of_all};
ghost use Rattle.settings.specs.InForm.{IsInForm, IsTaken};
ghost use Rattle.conf_eval.specs.Opening.{block};
ghost use Rattle.conf_eval.specs.Settings as spec;
ghost use Rattle.conf_eval.specs.Sound.{AreAllGood, AreOpen, Grows, HasOwn, IsMade, StandsBehind};
ghost use Rattle.conf_eval.specs.Patterns.{ArePatterns};

use crate::Loaded;
use crate::opened::Opened;
use crate::pattern::Pattern;
use conf_value::{Block, Condition, Config, Setting, Value, Warning};
use lt_bytes::{List, NoMemory};
use regex::bytes::Regex;
use std::alloc::Global;
use std::marker::Model;

/// The blocks that were opened, and the patterns that were made. Contracts see both lists.
#[derive(Drop)]
pub struct Blocks {
    alloc: Global,
    blocks: Vec<Opened>,
    patterns: List<Pattern>,
}

impl Model for Blocks {
    ghost use Rattle.conf_eval.specs.Built.{Built};
    ghost use Rattle.conf_eval.specs.Stored.{built_code};
    ghost use Rattle.conf_eval.specs.Sound.{IsSound};

    ghost Value = { Built };

    ghost coded = { built_code };

    ghost view = { λ b. record { blocks = b.blocks.items; patterns = b.patterns } };

    ghost invariant = { λ b. IsSound (record { blocks = b.blocks.items; patterns = b.patterns }) };
}

// A block of these sets a key.
fn set_in(blocks: &mut Vec<Opened>, at: usize, setting: Setting) -> Result<(), NoMemory>
    requires at { at < length blocks.old.items }
    requires taken { IsTaken (check setting.key setting.value) }
    ensures ok { OnOk result (blocks.new.items ≡ spec.with_key at setting blocks.old.items) }
    ensures err { OnErr result (blocks.new.items ≡ blocks.old.items) }
{
    let block = &mut blocks[at];
    block.set(setting)
}

impl Blocks {
    /// The global block alone.
    pub fn new(alloc: Global) -> Result<Blocks, NoMemory>
        ensures { IfOk result (λ b. b ≡ record { blocks = spec.blocks_of []; patterns = [] }) }
    {
        let mut blocks = Vec::new(alloc);
        match blocks.push(Opened::new(alloc, 0, None, None)) {
            Ok(()) => Ok(Blocks {
                alloc,
                blocks,
                patterns: List::new(alloc),
            }),
            Err(_) => Err(NoMemory),
        }
    }

    /// How many blocks there are.
    pub fn len(&self) -> usize
        ensures len { result ≡ length self.now.blocks }
        ensures many { result ≤ 1025 }
    {
        self.blocks.len()
    }

    /// How many patterns there are.
    pub fn patterns(&self) -> usize
        ensures len { result ≡ length self.now.patterns }
        ensures few { result ≤ 48 }
    {
        self.patterns.len()
    }

    /// What a block sets a key to.
    pub fn get(&self, block: u32, key: &[u8]) -> Option<&Value>
        ensures { option_copied result ≡ spec.value_of key.now (spec.settings_of block self.now.blocks) }
    {
        match self.blocks.get(block as usize) {
            Some(opened) => opened.get(key),
            None => None,
        }
    }

    /// What the first of these blocks that sets a key sets it to.
    pub fn find(&self, blocks: &[u32], key: &[u8]) -> Option<&Value>
        ensures { option_copied result ≡ spec.nearest self.now.blocks blocks.now key.now }
    {
        for block in blocks {
            if let Some(value) = self.get(*block, key) {
                return Some(value);
            }
        }
        None
    }

    /// Adds a pattern that was made of this text.
    pub fn add(&mut self, text: &[u8], regex: Regex, rule: bool) -> Result<(), NoMemory>
        requires made { IsPatternOf text.now regex }
        requires few { length self.old.patterns < 48 }
        ensures patterns { OnOk result (self.new.patterns ≡ self.old.patterns ++ (text.now, rule) ∷ []) }
        ensures blocks { OnOk result (self.new.blocks ≡ self.old.blocks) }
    {
        match self.patterns.push(Pattern::new(text, regex, rule)) {
            Ok(()) => Ok(()),
            Err(_) => Err(NoMemory),
        }
    }

    /// Opens a block in these, behind this branch of its chain if there is one.
    pub fn open(
        &mut self,
        scopes: &[u32],
        behind: Option<u32>,
        condition: Option<Condition>,
    ) -> Result<(), NoMemory>
        requires scopes { AreOpen scopes.now self.old.blocks }
        requires behind { StandsBehind behind scopes.now self.old.blocks }
        requires condition { HasOwn self.old.patterns condition }
        requires bare { condition ≡ None → IsSome behind }
        requires few { length self.old.blocks < 1025 }
        ensures blocks { OnOk result (self.new.blocks ≡ self.old.blocks ++ block scopes.now behind condition ∷ []) }
        ensures patterns { OnOk result (self.new.patterns ≡ self.old.patterns) }
        ensures grows { OnOk result (Grows self.old.blocks self.new.blocks) }
    {
        let opened = Opened::new(self.alloc, innermost(scopes), behind, condition);
        match self.blocks.push(opened) {
            Ok(()) => Ok(()),
            Err(_) => Err(NoMemory),
        }
    }

    /// The innermost of these blocks sets a key.
    pub fn set(&mut self, scopes: &[u32], setting: Setting) -> Result<(), NoMemory>
        requires scopes { AreOpen scopes.now self.old.blocks }
        requires taken { IsTaken (check setting.key setting.value) }
        requires made { IsMade self.old.patterns setting }
        ensures blocks { OnOk result (self.new.blocks ≡ spec.with_key (spec.innermost scopes.now) setting self.old.blocks) }
        ensures patterns { OnOk result (self.new.patterns ≡ self.old.patterns) }
        ensures grows { OnOk result (Grows self.old.blocks self.new.blocks) }
    {
        let block = innermost(scopes);
        match set_in(&mut self.blocks, block as usize, setting) {
            Ok(()) => Ok(()),
            Err(_) => Err(NoMemory),
        }
    }

    /// The configuration of these blocks, with its patterns.
    pub fn into_loaded(self, warnings: List<Warning>) -> Result<Loaded, NoMemory>
        ensures loaded { IfOk result (λ r. r ≡ record { config = record { blocks = self.blocks; warnings = warnings }; patterns = self.patterns }) }
        ensures form { IfOk result (λ r. lists_of_all r.config.blocks < 2 ^ 32 → IsInForm r.config) }
        ensures patterns { IfOk result (λ r. ArePatterns r.config.blocks r.patterns) }
    {
        let Blocks {
            alloc,
            blocks,
            patterns,
        } = self;
        let blocks = all_closed(alloc, blocks)?;
        Ok(Loaded {
            config: Config { blocks, warnings },
            patterns,
        })
    }
}

// The blocks, which set nothing more.
fn all_closed(alloc: Global, opened: Vec<Opened>) -> Result<List<Block>, NoMemory>
    ensures blocks { IfOk result (λ blocks. blocks ≡ opened.items) }
    ensures good { IfOk result (λ blocks. AreAllGood blocks) }
{
    let mut blocks = List::new(alloc);
    for one in opened {
        blocks.push(one.into_block())?;
    }
    Ok(blocks)
}

/// The number of the innermost of these blocks.
pub fn innermost(scopes: &[u32]) -> u32
    ensures { result ≡ spec.innermost scopes.now }
{
    match scopes.first() {
        Some(block) => *block,
        None => 0,
    }
}
