//! What the steps of a script do to the links.
ghost use Rattle.std.specs.Prelude.{◌≡◌, ◌+◌, ◌<◌, ◌≤◌, true, List, length, drop, get_or, OnOk, OnErr, IfOk, min};
ghost use Rattle.lt_script.specs.declared.script.Step.{Step};
ghost use Rattle.script_net.specs.Steps.{link_of, is_open_at, is_due, skip, event_of, taker_of, count_of, steps_from, lowered, less, allowed};
ghost use Rattle.script_net.specs.LinksView.{Stays, Steps};

use crate::letters::letters;
use crate::links::Links;
use lt_bytes::NoMemory;
use lt_script::{Name, Step};
use lt_world::{Event, Link};
use std::alloc::Global;

/// How many bytes of reads and writes there is room for after an event.
pub const ROOM: usize = 4_096;

/// The link to which a write may take something until the next event, and how much.
#[derive(Clone, Copy, Debug)]
pub struct Taker {
    pub link: u32,
    pub size: u32,
}

// Where the next step stands whose link is open, from a place on.
fn due_at(steps: &[Step], at: usize, links: &Links) -> usize
    requires { at ≤ length steps.now }
    ensures within { result ≤ length steps.now }
    ensures after { at ≤ result }
    ensures skipped { skip links.now.sides (drop at steps.now) ≡ drop result steps.now }
    ensures due { (step : Step) → result < length steps.now → is_due (get_or steps.now result step) links.now.sides ≡ true }
{
    for i in at..steps.len() {
        if is_due(&steps[i], links) {
            return i;
        }
    }
    steps.len()
}

/// The next step whose link is open, from a step on of which so many events were played, and how many of its own were.
pub fn due_from(steps: &[Step], at: usize, played: u32, links: &Links) -> (usize, u32)
    requires { at ≤ length steps.now }
    ensures within { result.0 ≤ length steps.now }
    ensures skipped { skip links.now.sides (steps_from played (drop at steps.now)) ≡ steps_from result.1 (drop result.0 steps.now) }
    ensures due { (step : Step) → result.0 < length steps.now → is_due (get_or steps.now result.0 step) links.now.sides ≡ true }
{
    let due = due_at(steps, at, links);
    if due == at { (at, played) } else { (due, 0) }
}

fn is_due(step: &Step, links: &Links) -> bool
    ensures { result ≡ is_due step.now links.now.sides }
{
    match step {
        Step::Accept { peer: _, local: _ } => true,
        Step::Bytes { link, bytes: _ } => is_open_at(*link, links),
        Step::Pour { link, size: _ } => is_open_at(*link, links),
        Step::End { link } => is_open_at(*link, links),
        Step::Ready { link, count: _ } => is_open_at(*link, links),
        Step::ReadFail { link } => is_open_at(*link, links),
        Step::Take {
            link,
            size: _,
            count: _,
        } => is_open_at(*link, links),
        Step::WriteFail { link } => is_open_at(*link, links),
        Step::Idle => true,
    }
}

fn is_open_at(name: Name, links: &Links) -> bool
    ensures { result ≡ is_open_at name links.now.sides }
{
    links.is_open(link_of(name, links.len()))
}

// The number of the link that a name names, over so many links.
fn link_of(name: Name, links: usize) -> usize
    ensures link { result ≡ link_of name links }
    ensures small { links ≤ 4294967295 → result ≤ 4294967295 }
{
    if name.gate {
        links
    } else {
        name.number as usize
    }
}

// The link of a step that is due.
fn link_at(name: Name, links: &Links) -> u32
    requires { is_open_at name links.now.sides ≡ true }
    ensures link { result ≡ link_of name (length links.now.sides) }
    ensures known { result < length links.now.sides }
{
    link_of(name, links.len()) as u32
}

/// What a step that is due does to the links, and its event.
pub fn affect(alloc: Global, step: &Step, links: &mut Links) -> Result<Event, NoMemory>
    requires due { is_due step.now links.old.sides ≡ true }
    requires calls { 0 < links.old.calls }
    ensures event { IfOk result (λ event. event ≡ event_of step.now (length links.old.sides)) }
    ensures ok { OnOk result (Steps step.now links.old links.new) }
    ensures err { OnErr result (Stays links.old links.new) }
{
    match step {
        Step::Accept { peer, local } => {
            let link = links.accept(alloc, *peer, *local)?;
            Ok(Event::Arrived {
                link,
                peer: *peer,
                local: *local,
            })
        }
        Step::Bytes { link, bytes } => {
            let link = link_at(*link, links);
            links.give(link, bytes.bytes())?;
            Ok(Event::Readable(Link(link)))
        }
        Step::Pour { link, size } => {
            let link = link_at(*link, links);
            let bytes = letters(alloc, *size as usize)?;
            links.give(link, &bytes)?;
            Ok(Event::Readable(Link(link)))
        }
        Step::End { link } => {
            let link = link_at(*link, links);
            links.end(link);
            Ok(Event::Readable(Link(link)))
        }
        Step::Ready { link, count: _ } => {
            let link = link_at(*link, links);
            links.ready(link);
            Ok(Event::Readable(Link(link)))
        }
        Step::ReadFail { link } => {
            let link = link_at(*link, links);
            links.fail_reads(link);
            Ok(Event::Readable(Link(link)))
        }
        Step::Take {
            link,
            size: _,
            count: _,
        } => {
            let link = link_at(*link, links);
            links.let_take(link, ROOM)?;
            Ok(Event::Writable(Link(link)))
        }
        Step::WriteFail { link } => {
            let link = link_at(*link, links);
            links.fail_writes(link);
            Ok(Event::Writable(Link(link)))
        }
        Step::Idle => Ok(Event::Idle),
    }
}

/// The place after one event of a step of which so many events were played.
pub fn spend(step: &Step, at: usize, played: u32) -> (usize, u32)
    requires { at < 18446744073709551615 }
    ensures within { result.0 ≤ at + 1 }
    ensures left { (steps : List Step) → at < length steps → get_or steps at step.now ≡ step.now → steps_from result.1 (drop result.0 steps) ≡ less (lowered played step.now) (drop (at + 1) steps) }
{
    let count = count(step);
    if count > 1 && played < count - 1 {
        (at, played + 1)
    } else {
        (at + 1, 0)
    }
}

// How many events a step has.
fn count(step: &Step) -> u32
    ensures { result ≡ count_of step.now }
{
    match step {
        Step::Ready { link: _, count } => *count,
        Step::Take {
            link: _,
            size: _,
            count,
        } => *count,
        _ => 1,
    }
}

/// The link that may take bytes after this step, over so many links.
pub fn taker_of(step: &Step, links: usize) -> Option<Taker>
    requires { links ≤ 4294967295 }
    ensures { result ≡ taker_of step.now links }
{
    match step {
        Step::Take {
            link,
            size,
            count: _,
        } => Some(Taker {
            link: link_of(*link, links) as u32,
            size: *size,
        }),
        _ => None,
    }
}

/// How much a write of this length takes.
pub fn allowed(taker: Option<Taker>, link: u32, len: usize) -> usize
    ensures { result ≡ min (allowed taker link) len }
{
    match taker {
        Some(taker) if taker.link == link => len.min(taker.size as usize),
        _ => 0,
    }
}
