//! A block that was opened.
ghost use Rattle.std.specs.Prelude.{◌≡◌, [], OnOk, OnErr};
ghost use Rattle.std.specs.Option.{option_copied};
ghost use Rattle.settings.specs.Checking.{check};
ghost use Rattle.settings.specs.InForm.{AreGoodSettings, IsTaken};
ghost use Rattle.conf_eval.specs.Settings.{set_to, value_of, with_setting};

use crate::table::Table;
use conf_value::{Block, Condition, Setting, Value};
use lt_bytes::NoMemory;
use std::alloc::Global;
use std::marker::Model;

/// A block that was opened, whose settings are found by their keys. Contracts see it as a block.
#[derive(Drop)]
pub struct Opened {
    parent: u32,
    chain: Option<u32>,
    condition: Option<Condition>,
    table: Table,
}

impl Model for Opened {
    ghost use Rattle.conf_value.specs.declared.block.Block.{Block};
    ghost use Rattle.conf_eval.specs.Stored.{block_code};

    ghost Value = { Block };

    ghost coded = { block_code };

    ghost view = { λ o. record { parent = o.parent; chain = o.chain; condition = o.condition; settings = o.table } };
}

impl Opened {
    /// A block that sets nothing.
    pub fn new(
        alloc: Global,
        parent: u32,
        chain: Option<u32>,
        condition: Option<Condition>,
    ) -> Opened
        ensures { result ≡ record { parent = parent; chain = chain; condition = condition; settings = [] } }
    {
        Opened {
            parent,
            chain,
            condition,
            table: Table::new(alloc),
        }
    }

    /// What it sets a key to.
    pub fn get(&self, key: &[u8]) -> Option<&Value>
        ensures { option_copied result ≡ value_of key.now self.now.settings }
    {
        self.table.get(key)
    }

    /// Sets a key.
    pub fn set(&mut self, setting: Setting) -> Result<(), NoMemory>
        requires taken { IsTaken (check setting.key setting.value) }
        ensures ok { OnOk result (self.new ≡ set_to self.old (with_setting self.old.settings setting)) }
        ensures err { OnErr result (self.new ≡ self.old) }
    {
        self.table.set(setting)
    }

    pub fn into_block(self) -> Block
        ensures block { result ≡ self }
        ensures good { AreGoodSettings result.settings }
    {
        Block {
            parent: self.parent,
            chain: self.chain,
            condition: self.condition,
            settings: self.table.into_settings(),
        }
    }
}
