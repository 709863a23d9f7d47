//! The first items of some segments as segments of their own.
ghost use Rattle.std.specs.Prelude.{◌≡◌, ◌+◌, ◌≤◌, ◌<◌, ◌^◌, [], ◌∷◌, ◌++◌, length, IfOk, IsOk, OnOk, OnErr};
ghost use Rattle.chunkqueue.specs.Plain.{segment_items, first_left, part_of, rest_of, AllHeld, FirstStaged, IsPart, IsPlace};

use crate::segment::Segment;
use lt_bytes::NoMemory;
use std::alloc::Global;
use std::collections::LinkedList;
use std::mem::replace;

/// Takes the first `n` items off. Without memory for the part of a segment that is split the segments are as they were.
pub(crate) fn split(
    list: &mut LinkedList<Segment>,
    alloc: Global,
    n: u64,
) -> Result<LinkedList<Segment>, NoMemory>
    requires held { AllHeld list.old }
    requires first { FirstStaged list.old }
    requires countable { length list.old < 2 ^ 63 }
    requires some { 0 < n }
    requires within { n ≤ length (segment_items list.old) }
    ensures ok { IfOk result (λ front. IsPart list.old front list.new n) }
    ensures err { OnErr result (list.new ≡ list.old) }
    ensures whole { n ≡ length (segment_items list.old) → IsOk result }
{
    let (count, left) = place_of(list, n);
    match list.split_off(count) {
        Ok(rest) => {
            if left == 0 {
                return Ok(replace(list, rest));
            }
            cut(list, alloc, rest, left)
        }
        Err(_) => unreachable!(),
    }
}

// The first `n` items lie in so many whole segments and so many items of the next one.
fn place_of(list: &LinkedList<Segment>, n: u64) -> (usize, u64)
    requires held { AllHeld list.now }
    requires within { n ≤ length (segment_items list.now) }
    ensures place { IsPlace list.now n result.0 result.1 }
{
    let mut count = 0;
    let mut left = n;
    for segment in list.iter() {
        let len = segment.len();
        if left < len {
            return (count, left);
        }
        left -= len;
        count += 1;
    }
    (count, left)
}

// Takes the segments off, with the first `n` items of the others, which stay.
fn cut(
    list: &mut LinkedList<Segment>,
    alloc: Global,
    others: LinkedList<Segment>,
    n: u64,
) -> Result<LinkedList<Segment>, NoMemory>
    requires inside { n < first_left others }
    requires countable { length list.old + length others < 2 ^ 63 }
    ensures ok { IfOk result (λ front. (front ≡ list.old ++ part_of n others) × (list.new ≡ rest_of n others)) }
    ensures err { OnErr result (list.new ≡ list.old ++ others) }
{
    let mut rest = others;
    match push_part(list, alloc, &rest, n) {
        Ok(()) => {
            skip_front(&mut rest, n);
            Ok(replace(list, rest))
        }
        Err(error) => {
            list.append(&mut rest).unwrap();
            Err(error)
        }
    }
}

fn push_part(
    list: &mut LinkedList<Segment>,
    alloc: Global,
    others: &LinkedList<Segment>,
    n: u64,
) -> Result<(), NoMemory>
    requires inside { n < first_left others.now }
    ensures ok { OnOk result (list.new ≡ list.old ++ part_of n others.now) }
    ensures err { OnErr result (list.new ≡ list.old) }
{
    let part = match others.front() {
        Some(segment) => segment.copy_front(alloc, n)?,
        None => unreachable!(),
    };
    match list.push_back(part) {
        Ok(()) => Ok(()),
        Err(_) => Err(NoMemory),
    }
}

fn skip_front(list: &mut LinkedList<Segment>, n: u64)
    requires inside { n < first_left list.old }
    ensures { list.new ≡ rest_of n list.old }
{
    if let Some(segment) = list.front_mut() {
        segment.skip(n);
    }
}
