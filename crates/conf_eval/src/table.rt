//! The settings of a block, found by their keys.
ghost use Rattle.std.specs.Prelude.{◌≡◌, [], None, OnOk, OnErr};
ghost use Rattle.std.specs.Option.{option_copied};
ghost use Rattle.settings.specs.Checking.{check};
ghost use Rattle.settings.specs.InForm.{AreGoodSettings, IsTaken};
ghost use Rattle.conf_eval.specs.Places.{place_of_setting};
ghost use Rattle.conf_eval.specs.Settings.{value_of, with_setting};

use crate::places::Places;
use conf_value::{Setting, Value};
use lt_bytes::{List, NoMemory};
use std::alloc::Global;
use std::marker::Model;

/// What a block sets so far. Contracts see it as the list of its settings.
#[derive(Drop)]
pub struct Table {
    settings: List<Setting>,
    places: Places,
}

impl Model for Table {
    ghost use Rattle.std.specs.Prelude.{◌≡◌, ℕ, List};
    ghost use Rattle.conf_value.specs.declared.block.Setting.{Setting};
    ghost use Rattle.conf_eval.specs.Forms.{AreGood};
    ghost use Rattle.conf_eval.specs.Places.{place_in, place_of_setting};
    ghost use Rattle.conf_eval.specs.Stored.{setting_code};
    ghost use Rattle.std.specs.Coded.{coded_list};

    ghost Value = { List Setting };

    ghost coded = { coded_list setting_code };

    ghost view = { λ t. t.settings };

    ghost invariant = { λ t. ((key : List ℕ) → place_in t.places key ≡ place_of_setting t.settings key) × AreGood t.settings };
}

impl Table {
    pub fn new(alloc: Global) -> Table
        ensures { result ≡ [] }
    {
        Table {
            settings: List::new(alloc),
            places: Places::new(alloc),
        }
    }

    /// What a key is set to.
    pub fn get(&self, key: &[u8]) -> Option<&Value>
        ensures { option_copied result ≡ value_of key.now self.now }
    {
        let Some(at) = self.places.find(key) else {
            return None;
        };
        match self.settings.get(at) {
            Some(setting) => Some(&setting.value),
            None => None,
        }
    }

    /// Sets a key: in its place if it was set before, else behind the others.
    pub fn set(&mut self, setting: Setting) -> Result<(), NoMemory>
        requires taken { IsTaken (check setting.key setting.value) }
        ensures ok { OnOk result (self.new ≡ with_setting self.old setting) }
        ensures err { OnErr result (self.new ≡ self.old) }
    {
        match self.places.find(setting.key.bytes()) {
            Some(at) => {
                self.settings.replace(at, setting);
                Ok(())
            }
            None => self.append(setting),
        }
    }

    // Sets a key that was not set.
    fn append(&mut self, setting: Setting) -> Result<(), NoMemory>
        requires taken { IsTaken (check setting.key setting.value) }
        requires absent { place_of_setting self.old setting.key ≡ None }
        ensures ok { OnOk result (self.new ≡ with_setting self.old setting) }
        ensures err { OnErr result (self.new ≡ self.old) }
    {
        let at = self.settings.len();
        let name = self.places.name(setting.key.bytes())?;
        self.settings.push(setting)?;
        match self.places.put(name, at) {
            Ok(()) => Ok(()),
            Err(_) => {
                self.settings.pop();
                Err(NoMemory)
            }
        }
    }

    pub fn into_settings(self) -> List<Setting>
        ensures settings { result ≡ self }
        ensures good { AreGoodSettings result }
    {
        self.settings
    }
}
