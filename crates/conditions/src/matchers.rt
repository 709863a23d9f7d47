//! The matchers of all patterns, kept from request to request.
ghost use Rattle.std.specs.Prelude.{◌≡◌, ◌<◌, ◌^◌, ℕ, Bool, List, [], ◌∷◌, ◌++◌, Some, true, length, slice_get, IfOk, OnOk, OnErr, unwrap_or};
ghost use Rattle.regex.specs.Bytes.{regex_source};
ghost use Rattle.conditions.specs.Groups.{IsRead, groups_by};
ghost use Rattle.conditions.specs.Marked.{IsRule};
ghost use Rattle.conditions.specs.Comparing.{matches};

use crate::groups::Groups;
use crate::kept::{Kept, found_in, is_found, kept_for};
use lt_bytes::NoMemory;
use regex::bytes::Regex;
use std::alloc::Global;
use std::marker::Model;

/// The matchers of some patterns, by the patterns' numbers, which count from 0. Contracts see the patterns' texts,
/// each with the mark whether it is a rule's.
#[derive(Drop)]
pub struct Matchers<'p> {
    alloc: Global,
    kept: Vec<Kept<'p>>,
}

impl<'p> Model for Matchers<'p> {
    ghost use Rattle.std.specs.Prelude.{List, All};
    ghost use Rattle.std.specs.Coded.{coded_list, coded×, coded_ℕ, coded_bool};
    ghost use Rattle.conditions.specs.Marked.{Marked};
    ghost use Rattle.conditions.specs.Kept.{IsKept, patterns_of};

    ghost Value = { List Marked };

    ghost coded = { coded_list (coded× (coded_list coded_ℕ) coded_bool) };

    ghost view = { λ m. patterns_of m.kept.items };

    ghost invariant = { λ m. All IsKept m.kept.items };
}

impl<'p> Matchers<'p> {
    /// No matcher.
    pub fn new(alloc: Global) -> Matchers<'p>
        ensures { result ≡ [] }
    {
        Matchers {
            alloc,
            kept: Vec::new(alloc),
        }
    }

    /// Makes the matcher of a pattern with the mark whether it is a rule's, and answers its number.
    pub fn add(&mut self, pattern: &'p Regex, rule: bool) -> Result<u32, NoMemory>
        requires read { IsRead pattern.now }
        requires few { length self.old < 2 ^ 32 }
        ensures ok { OnOk result (self.new ≡ self.old ++ (regex_source pattern.now, rule) ∷ []) }
        ensures number { IfOk result (λ n. n ≡ length self.old) }
        ensures err { OnErr result (self.new ≡ self.old) }
    {
        let number = self.kept.len() as u32;
        let kept = kept_for(self.alloc, pattern, rule)?;
        match self.kept.push(kept) {
            Ok(()) => Ok(number),
            Err(_) => Err(NoMemory),
        }
    }

    /// Whether the pattern with this number matches somewhere.
    pub(crate) fn is_found(&mut self, pattern: u32, hay: &[u8]) -> bool
        requires { pattern < length self.old }
        ensures found { (text : List ℕ) (rule : Bool) → slice_get self.old pattern ≡ Some (text, rule)
            → result ≡ matches text hay.now }
        ensures same { self.new ≡ self.old }
    {
        is_found(&mut self.kept[pattern as usize], hay)
    }

    /// The groups of the leftmost match of the pattern with this number, if it matches somewhere.
    pub(crate) fn found_in(&mut self, pattern: u32, hay: &[u8]) -> Result<Option<Groups>, NoMemory>
        requires { pattern < length self.old }
        ensures found { (text : List ℕ) (rule : Bool) → slice_get self.old pattern ≡ Some (text, rule)
            → IfOk result (λ groups. groups ≡ groups_by text hay.now) }
        ensures same { self.new ≡ self.old }
    {
        found_in(self.alloc, &mut self.kept[pattern as usize], hay)
    }

    /// Whether the pattern of a rule matches somewhere in a text. The groups become those of its leftmost match, or
    /// empty ones where there is none.
    pub fn find(&mut self, pattern: u32, text: &[u8], groups: &mut Groups) -> Result<bool, NoMemory>
        requires { IsRule self.old pattern }
        ensures found { (source : List ℕ) → slice_get self.old pattern ≡ Some (source, true)
            → IfOk result (λ found. found ≡ matches source text.now) }
        ensures groups { (source : List ℕ) → slice_get self.old pattern ≡ Some (source, true)
            → OnOk result (groups.new ≡ unwrap_or (groups_by source text.now) []) }
        ensures err { OnErr result (groups.new ≡ groups.old) }
        ensures same { self.new ≡ self.old }
    {
        match self.found_in(pattern, text) {
            Ok(Some(found)) => {
                *groups = found;
                Ok(true)
            }
            Ok(None) => {
                *groups = Groups::new(self.alloc);
                Ok(false)
            }
            Err(NoMemory) => Err(NoMemory),
        }
    }
}
