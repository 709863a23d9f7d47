//! Segments one after another.
ghost use Rattle.std.specs.Prelude.{◌≡◌, ◌+◌, ◌-◌, ◌^◌, ◌<◌, ◌≤◌, [], ◌∷◌, ◌++◌, drop, take, length, min, Some, IsOk, IfOk, OnOk, OnErr, MatchOption};
ghost use Rattle.lt_world.specs.Causes.{Rose};
ghost use Rattle.chunkqueue.specs.Plain.{memory_before, first_staged, first_staging, front_of_segments, segments_after, segments_joined, segments_unstaged, segment_items, AllHeld, FirstStaged, FirstLies, IsPart, staged_by};

use crate::segment::Segment;
use crate::stealing::split;
use buffer_pool::BUFFER_SIZE;
use lt_bytes::NoMemory;
use lt_world::{Fault, Files, Owner};
use std::alloc::Global;
use std::collections::LinkedList;
use std::marker::Model;

/// A list of segments that needs no allocator until its first one.
#[derive(Drop)]
pub(crate) struct Chain {
    segments: Option<LinkedList<Segment>>,
}

impl Model for Chain {
    ghost use Rattle.std.specs.Prelude.{List};
    ghost use Rattle.chunkqueue.specs.declared.segment.Segment.{Segment};

    ghost Value = { List Segment };

    ghost use Rattle.chunkqueue.specs.Chain.{linked};

    ghost view = { λ c. linked c.segments };
}

impl Chain {
    pub(crate) fn new() -> Chain
        ensures { result ≡ [] }
    {
        Chain { segments: None }
    }

    pub(crate) fn push_back(&mut self, alloc: Global, segment: Segment) -> Result<(), NoMemory>
        ensures ok { OnOk result (self.new ≡ self.old ++ segment ∷ []) }
        ensures err { OnErr result (self.new ≡ self.old) }
    {
        match &mut self.segments {
            Some(list) => match list.push_back(segment) {
                Ok(()) => Ok(()),
                Err(_) => Err(NoMemory),
            },
            None => {
                let mut list = LinkedList::new(alloc);
                match list.push_back(segment) {
                    Ok(()) => {
                        self.segments = Some(list);
                        Ok(())
                    }
                    Err(_) => Err(NoMemory),
                }
            }
        }
    }

    pub(crate) fn front(&self) -> Option<&Segment>
        ensures { MatchOption result (self.now ≡ []) (λ s. self.now ≡ s.now ∷ drop 1 self.now) }
    {
        match &self.segments {
            Some(list) => list.front(),
            None => None,
        }
    }

    /// The bytes that can leave now.
    pub(crate) fn front_bytes(&self) -> &[u8]
        ensures front { result.now ≡ front_of_segments self.now }
        ensures most { length result.now ≤ BUFFER_SIZE }
    {
        match self.front() {
            Some(segment) => segment.front(),
            None => &[],
        }
    }

    /// Takes bytes off the first segment, and the segment once nothing is left of it.
    pub(crate) fn drop_front(&mut self, n: usize)
        requires { n ≤ length (front_of_segments self.old) }
        ensures { self.new ≡ segments_after n self.old }
    {
        if let Some(list) = &mut self.segments {
            drop_from(list, n);
        }
    }

    /// Reads the first bytes of a range that stands first and of which nothing is staged.
    pub(crate) fn stage<F: Files>(&mut self, files: &mut F, owner: Owner) -> Result<(), Fault>
        requires held { AllHeld self.old }
        requires lies { F.tells → FirstLies (F.disk files.old) self.old }
        ensures rest { segments_unstaged self.new ≡ segments_unstaged self.old }
        ensures staged { OnOk result (length (first_staged self.new) ≡ first_staging self.old) }
        ensures bytes { OnOk result (F.tells → first_staged self.new ≡ staged_by (F.disk files.old) self.old) }
        ensures idle { first_staging self.old ≡ length (first_staged self.old) →
            IsOk result × (self.new ≡ self.old) × (files.new ≡ files.old) }
        ensures err { OnErr result (self.new ≡ self.old) }
        ensures cause { OnErr result (Rose (F.faults files.old) (F.faults files.new)) }
        ensures owner { OnErr result ((F.reads files.new).failed ≡ Some owner) }
        ensures read { OnOk result ((F.reads files.new).failed ≡ (F.reads files.old).failed) }
        ensures once { (F.reads files.new).made ≤ (F.reads files.old).made + 1 }
        ensures disk { F.tells → F.disk files.new ≡ F.disk files.old }
        ensures faults { F.faults files.old ≤ F.faults files.new }
        ensures later { F.later files.old files.new }
    {
        let Some(list) = &mut self.segments else {
            return Ok(());
        };
        match list.front_mut() {
            Some(segment) => segment.stage(files, owner),
            None => Ok(()),
        }
    }

    /// Links the segments of another chain behind these. A segment that comes behind another one is not staged.
    pub(crate) fn append(&mut self, from: &mut Chain)
        requires { length self.old + length from.old < 2 ^ 63 }
        ensures all { self.new ≡ segments_joined self.old from.old }
        ensures from { from.new ≡ [] }
    {
        let Some(more) = &mut from.segments else {
            return;
        };
        match &mut self.segments {
            Some(list) => link(list, more),
            None => self.segments = from.segments.take(),
        }
    }

    /// Takes the first `n` items off, as a chain of their own. Without memory nothing is taken.
    pub(crate) fn take_front(&mut self, alloc: Global, n: u64) -> Result<Chain, NoMemory>
        requires held { AllHeld self.old }
        requires first { FirstStaged self.old }
        requires countable { length self.old < 2 ^ 63 }
        requires some { 0 < n }
        requires within { n ≤ length (segment_items self.old) }
        ensures ok { IfOk result (λ front. IsPart self.old front self.new n) }
        ensures err { OnErr result (self.new ≡ self.old) }
        ensures whole { n ≡ length (segment_items self.old) → IsOk result }
    {
        let Some(list) = &mut self.segments else {
            unreachable!();
        };
        match split(list, alloc, n) {
            Ok(front) => Ok(Chain {
                segments: Some(front),
            }),
            Err(error) => Err(error),
        }
    }

    /// Forgets what is staged.
    pub(crate) fn unstage(&mut self)
        ensures { self.new ≡ segments_unstaged self.old }
    {
        if let Some(list) = &mut self.segments {
            unstage_first(list);
        }
    }

    /// Links the segments of another chain behind these. None of them is staged then.
    pub(crate) fn extend(&mut self, from: Chain)
        requires { length self.old + length from < 2 ^ 63 }
        ensures { self.new ≡ segments_joined self.old (segments_unstaged from) }
    {
        let mut more = from;
        more.unstage();
        self.append(&mut more);
    }

    /// Copies the bytes in memory that stand before any range, and answers how many.
    pub(crate) fn peek(&self, buf: &mut [u8]) -> usize
        ensures count { result ≡ min (length buf.old) (length (memory_before self.now)) }
        ensures bytes { take result buf.new ≡ take result (memory_before self.now) }
        ensures rest { drop result buf.new ≡ drop result buf.old }
    {
        match &self.segments {
            Some(list) => copy_memory(list, buf),
            None => 0,
        }
    }

    /// Gives the memory of all segments back, one after another.
    pub(crate) fn clear(&mut self)
        ensures { self.new ≡ [] }
    {
        self.segments = None;
    }
}

// Takes bytes off the first of some segments, and the segment once nothing is left of it.
fn drop_from(list: &mut LinkedList<Segment>, n: usize)
    requires { n ≤ length (front_of_segments list.old) }
    ensures { list.new ≡ segments_after n list.old }
{
    let Some(segment) = list.front_mut() else {
        return;
    };
    segment.drop_front(n);
    if segment.is_spent() {
        let _spent = list.pop_front();
    }
}

fn link(list: &mut LinkedList<Segment>, more: &mut LinkedList<Segment>)
    requires { length list.old + length more.old < 2 ^ 63 }
    ensures all { list.new ≡ segments_joined list.old more.old }
    ensures more { more.new ≡ [] }
{
    if list.is_empty() {
        list.append(more).unwrap();
        return;
    }
    unstage_first(more);
    list.append(more).unwrap();
}

fn unstage_first(list: &mut LinkedList<Segment>)
    ensures { list.new ≡ segments_unstaged list.old }
{
    if let Some(segment) = list.front_mut() {
        segment.unstage();
    }
}

// Copies the bytes in memory that stand before any range, and answers how many.
fn copy_memory(list: &LinkedList<Segment>, buf: &mut [u8]) -> usize
    ensures count { result ≡ min (length buf.old) (length (memory_before list.now)) }
    ensures bytes { take result buf.new ≡ take result (memory_before list.now) }
    ensures rest { drop result buf.new ≡ drop result buf.old }
{
    let mut count = 0;
    for segment in list.iter() {
        let Segment::Memory(memory) = segment else {
            return count;
        };
        count += copy_at(buf, count, memory.bytes());
        if count == buf.len() {
            return count;
        }
    }
    count
}

// Copies bytes into a buffer from a place on, as many as there is room for, and answers how many.
pub(crate) fn copy_at(buf: &mut [u8], at: usize, bytes: &[u8]) -> usize
    requires { at ≤ length buf.old }
    ensures count { result ≡ min (length buf.old - at) (length bytes.now) }
    ensures bytes { buf.new ≡ take at buf.old ++ take result bytes.now ++ drop (at + result) buf.old }
{
    let count = (buf.len() - at).min(bytes.len());
    buf[at..at + count].copy_from_slice(&bytes[..count]);
    count
}
