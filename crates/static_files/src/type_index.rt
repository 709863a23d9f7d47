//! An index of media types, in which a long list costs no more than a short one.
ghost use Rattle.std.specs.Prelude.{◌≡◌, ◌<◌, ◌≢◌, [], ◌∷◌, ◌++◌, ℕ, IfOk, OnOk, Some, None, if◌then◌else◌, length, map, option_map};
ghost use Rattle.static_files.specs.MediaTypes.{longest, mime, type_of};
ghost use Rattle.static_files.specs.TypeSlots.{ending, slot_of, has_window, longest_by, types_of, types_at, AreSlots};

use crate::media_types::{Entry, better, entry_of, value_of};
use conf_value::Pair;
use lt_bytes::NoMemory;
use std::alloc::Global;
use std::marker::Model;

/// How many of a key's last bytes choose its slot.
const WINDOW: usize = 3;

/// More slots are not made, however long the list is.
const MOST_SLOTS: usize = 65_535;

/// The entries whose keys have the same last bytes, and some others by chance, in their order.
#[derive(Drop)]
pub(crate) struct Slot<'a> {
    entries: Vec<Entry<'a>>,
}

/// An index of a list of media types, by the last bytes of their keys. Contracts see the list.
#[derive(Drop)]
pub struct TypeIndex<'a> {
    types: &'a [Pair],
    slots: Vec<Slot<'a>>,
}

impl<'a> Model for TypeIndex<'a> {
    ghost use Rattle.std.specs.Prelude.{List};
    ghost use Rattle.std.specs.Coded.{coded_list};
    ghost use Rattle.conf_value.specs.declared.value.Pair.{Pair};
    ghost use Rattle.conf_value.specs.contracts.value.Pair as pair;

    ghost Value = { List Pair };

    ghost coded = { coded_list pair.the_row.coded };

    ghost use Rattle.static_files.specs.TypeIndexView.{types_in, IsIndexed};

    ghost view = { types_in };

    ghost invariant = { IsIndexed };
}

/// The last bytes of a text, so many, or all of a shorter one.
fn ending(count: usize, text: &[u8]) -> &[u8]
    ensures { result.now ≡ ending count text.now }
{
    &text[text.len().saturating_sub(count)..]
}

/// The slot of a key's or a path's last bytes.
fn slot_of(slots: usize, end: &[u8]) -> usize
    requires { 0 < slots }
    ensures slot { result ≡ slot_of slots end.now }
    ensures within { result < slots }
{
    match end {
        [] => 0,
        [a] => usize::from(*a) % slots,
        [a, b] => (usize::from(*a) * 256 + usize::from(*b)) % slots,
        [a, b, c, ..] => ((usize::from(*a) * 256 + usize::from(*b)) * 256 + usize::from(*c))
            % slots,
    }
}

/// Empty slots: some four for each entry, so that few share one, and an odd number of them, so that each of the last
/// bytes counts.
fn empty_slots<'a>(alloc: Global, entries: usize) -> Result<Vec<Slot<'a>>, NoMemory>
    ensures some { IfOk result (λ slots. 0 < length slots.items) }
    ensures slots { IfOk result (λ slots. AreSlots slots.items []) }
{
    let count = entries.min(MOST_SLOTS / 4) * 4 + 3;
    let Ok(mut slots) = Vec::with_capacity(alloc, count) else {
        return Err(NoMemory);
    };
    while slots.len() < count {
        let slot = Slot {
            entries: Vec::new(alloc),
        };
        if slots.push(slot).is_err() {
            return Err(NoMemory);
        }
    }
    Ok(slots)
}

/// Puts an entry behind the others of its slot.
fn put<'a>(slots: &mut Vec<Slot<'a>>, at: usize, added: Entry<'a>) -> Result<(), NoMemory>
    requires { at < length slots.old.items }
    ensures count { length slots.new.items ≡ length slots.old.items }
    ensures here { OnOk result (types_at slots.new.items at ≡ types_at slots.old.items at ++ type_of added.entry ∷ []) }
    ensures others { OnOk result ((other : ℕ) → other ≢ at → types_at slots.new.items other ≡ types_at slots.old.items other) }
{
    let slot = &mut slots[at];
    match slot.entries.push(added) {
        Ok(()) => Ok(()),
        Err(_) => Err(NoMemory),
    }
}

/// Puts the entry of a pair in its slot, if it has one.
fn add<'a>(slots: &mut Vec<Slot<'a>>, pair: &'a Pair) -> Result<(), NoMemory>
    requires { 0 < length slots.old.items }
    ensures count { length slots.new.items ≡ length slots.old.items }
    ensures slots { OnOk result ((before : _) → AreSlots slots.old.items before → AreSlots slots.new.items (before ++ pair.now ∷ [])) }
{
    let Some(entry) = entry_of(pair) else {
        return Ok(());
    };
    let at = slot_of(slots.len(), ending(WINDOW, entry.key));
    put(slots, at, entry)?;
    Ok(())
}

/// The longest entry whose key has so many bytes, or more where these are all that count.
fn longest_in<'a>(entries: &[Entry<'a>], path: &[u8], window: usize) -> Option<Entry<'a>>
    ensures { option_map type_of result ≡ longest_by (has_window window) path.now (map type_of entries.now) }
{
    let mut best: Option<Entry<'a>> = None;
    let mut at = entries.len();
    while at > 0 {
        at -= 1;
        best = better(path, if_window(entries[at], window), best);
    }
    best
}

/// An entry whose key has so many bytes that count.
fn if_window<'a>(kept: Entry<'a>, window: usize) -> Option<Entry<'a>>
    ensures { option_map type_of result ≡ (if has_window window (type_of kept.entry) then Some (type_of kept.entry) else None) }
{
    if kept.key.len().min(WINDOW) == window {
        Some(kept)
    } else {
        None
    }
}

impl<'a> TypeIndex<'a> {
    /// The index of a list of media types.
    pub fn new(alloc: Global, types: &'a [Pair]) -> Result<TypeIndex<'a>, NoMemory>
        ensures { IfOk result (λ index. index ≡ types.now) }
    {
        let mut slots = empty_slots(alloc, types.len())?;
        for pair in types {
            add(&mut slots, pair)?;
        }
        Ok(TypeIndex { types, slots })
    }

    /// The longest entry with so many bytes that count.
    fn longest_of(&self, path: &[u8], window: usize) -> Option<Entry<'a>>
        ensures { option_map type_of result ≡ longest_by (has_window window) path.now (types_of self.now) }
    {
        let at = slot_of(self.slots.len(), ending(window, path));
        longest_in(&self.slots[at].entries, path, window)
    }

    /// The entry with the longest key in which the path ends.
    fn longest(&self, path: &[u8]) -> Option<Entry<'a>>
        ensures { option_map type_of result ≡ longest path.now self.now }
    {
        if let Some(entry) = self.longest_of(path, 3) {
            return Some(entry);
        }
        if let Some(entry) = self.longest_of(path, 2) {
            return Some(entry);
        }
        if let Some(entry) = self.longest_of(path, 1) {
            return Some(entry);
        }
        self.longest_of(path, 0)
    }

    /// The media type of a path, as `mime` finds it in the whole list. It takes no memory.
    pub fn mime(&self, path: &[u8]) -> &'a [u8]
        ensures { result.now ≡ mime self.now path.now }
    {
        value_of(self.longest(path))
    }
}
