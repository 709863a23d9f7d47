//! A net in memory, which plays a script.
ghost use Rattle.std.specs.Prelude.{◌≡◌, ℕ, ◌+◌, ◌<◌, ◌≤◌, ◌∷◌, [], List, length, false, OnOk, OnErr};
ghost use Rattle.lt_world.specs.Trace.{said, names, own, link_bound, Close as closed};
ghost use Rattle.lt_world.specs.Acts.{output_of, ending_of};
ghost use Rattle.lt_world.specs.Answers.{event_tells, kind_of, IsFresh, IsNumbered, OnEvent, UsesEvent, read_act, write_act, dial_act, GotWithin, TookWithin, IsFreshDial, IsNumberedDial};
ghost use Rattle.lt_world.specs.Causes.{Rose, GotCause, TookCause, DialCause};
ghost use Rattle.script_net.specs.Arrivals.{has_arrived};
ghost use Rattle.script_net.specs.Calls.{after, counted, Reads, Writes, Connects, Closes, Turns};
ghost use Rattle.script_net.specs.Steps.{events_left};
ghost use Rattle.script_net.specs.Playing.{unplayed, prepared, IsLater};
ghost use Rattle.script_net.specs.Waited.{plans_listen, plans_wait, FailsAs};
ghost use Rattle.script_net.specs.Since.{after_listen, after_wait, IsSince};
ghost use Rattle.lt_script.specs.Texts.{Spells};
ghost use Rattle.script_net.specs.Loads.{planted};
ghost use Rattle.script_net.specs.Reports.{Writes as Wrote, report_of};
ghost use Rattle.lt_world.specs.Memory.{tree_of};

use crate::links::Links;
use crate::load::{copy_faults, copy_steps, plant};
use crate::reporting::write_report;
use crate::steps::{ROOM, Taker, affect, allowed, due_from, spend, taker_of};
use crate::waiting::{Waiting, count};
use lt_bytes::{List, NoMemory};
use lt_script::{Script, Step};
use lt_world::{
    Address, Dialled, Ending, Event, Fault, Got, Link, MemFiles, Net, NextKind, Owner, Sink, Took,
    Waits,
};
use std::alloc::Global;
use std::marker::Model;

/// How many calls of `read`, `write`, `connect` and `close` there is room for after an event.
const CALLS: usize = 1_024;

/// A net that plays a script, and tells all that it answers.
#[derive(Drop)]
pub struct ScriptNet {
    alloc: Global,
    steps: List<Step>,
    at: usize,
    played: u32,
    links: Links,
    waiting: Waiting,
    taker: Option<Taker>,
    room: usize,
    faults: u64,
    last: NextKind,
}

impl Model for ScriptNet {
    ghost use Rattle.script_net.specs.Playing.{Playing};

    ghost Value = { Playing };

    ghost use Rattle.script_net.specs.NetView.{playing_of, IsPlaying};

    ghost view = { playing_of };

    ghost invariant = { IsPlaying };
}

impl ScriptNet {
    /// A net without events, which is to be loaded.
    pub fn new(alloc: Global) -> ScriptNet
        ensures { result ≡ unplayed [] }
    {
        ScriptNet {
            alloc,
            steps: List::new(alloc),
            at: 0,
            played: 0,
            links: Links::new(alloc),
            waiting: Waiting::new(List::new(alloc)),
            taker: None,
            room: 0,
            faults: 0,
            last: NextKind::NoneYet,
        }
    }

    /// Takes the steps of a script and the faults that are of a net, and puts its files where they are found. The faults
    /// that are of files are `plan_files`'s. Where memory is wanted, some of the files may be there, and the net stands as
    /// it was.
    pub fn load(&mut self, script: &Script, files: &mut MemFiles) -> Result<(), NoMemory>
        requires new { self.old ≡ unplayed [] }
        requires spelled { (bytes : List ℕ) × Spells bytes script.now }
        ensures plays { OnOk result (self.new ≡ prepared script.now) }
        ensures tree { OnOk result (tree_of files.new ≡ planted script.now.files (tree_of files.old)) }
        ensures rest { files.new ≡ record files.old { places = files.new.places } }
        ensures err { OnErr result (self.new ≡ self.old) }
        ensures unasked { self.new.last ≡ self.old.last }
    {
        plant(self.alloc, script.files.as_slice(), files)?;
        let plan = copy_faults(self.alloc, script.faults.as_slice())?;
        self.steps = copy_steps(self.alloc, script.steps.as_slice())?;
        self.waiting = Waiting::new(plan);
        self.at = 0;
        self.played = 0;
        Ok(())
    }

    /// How many links there are; each has a number below it.
    pub fn link_count(&self) -> usize
        ensures count { result ≡ length self.now.game.sides }
        ensures bound { result ≡ link_bound self.now.game.trace }
    {
        self.links.len()
    }

    /// Whether a link is a client's, which arrived.
    pub fn has_arrived(&self, link: usize) -> bool
        ensures arrived { result ≡ has_arrived (own link self.now.game.trace) }
    {
        self.links.has_arrived(link)
    }

    /// How a link was closed, if it was.
    pub fn ending(&self, link: usize) -> Option<Ending>
        requires { link < length self.now.game.sides }
        ensures ending { result ≡ ending_of (own link self.now.game.trace) }
    {
        self.links.ending(link)
    }

    /// The bytes that a link took.
    pub fn taken(&self, link: usize) -> &[u8]
        requires { link < length self.now.game.sides }
        ensures bytes { result.now ≡ output_of (own link self.now.game.trace) }
    {
        self.links.taken(link)
    }

    // The next event, or what comes in its place.
    fn advance(&mut self) -> Event
        ensures turns { Turns result self.old.game self.new.game }
        ensures script { self.new.script ≡ self.old.script }
        ensures last { self.new.last ≡ kind_of result }
        ensures faults { self.new.faults ≡ self.old.faults }
        ensures waited { self.new.waited ≡ self.old.waited }
        ensures calls { OnEvent result (1024 ≤ self.new.calls) }
        ensures room { OnEvent result (4096 ≤ self.new.room) }
        ensures fresh { names (length self.old.game.sides) self.old.game.trace ≡ false }
    {
        let links = self.links.len();
        if self.links.reserve(CALLS + 1).is_err() {
            self.last = NextKind::NoMemory;
            return Event::NoMemory;
        }
        let steps = self.steps.as_slice();
        let (at, played) = due_from(steps, self.at, self.played, &self.links);
        if at >= steps.len() {
            self.at = at;
            self.taker = None;
            self.last = NextKind::Over;
            return Event::Over;
        }
        let step = &steps[at];
        let Ok(event) = affect(self.alloc, step, &mut self.links) else {
            self.last = NextKind::NoMemory;
            return Event::NoMemory;
        };
        self.taker = taker_of(step, links);
        (self.at, self.played) = spend(step, at, played);
        self.room = ROOM;
        self.last = kind(event);
        event
    }
}

/// Writes what each link of a net took, and how it ended: a line `NAME ENDING N "BYTES"` for each, in their order.
pub fn report<S: Sink>(net: &ScriptNet, sink: &mut S) -> Result<(), Fault>
    ensures writes { S.tells → Wrote result (S.bytes sink.old) (S.bytes sink.new) (report_of net.now.game.trace) }
    ensures cause { OnErr result (Rose (S.faults sink.old) (S.faults sink.new)) }
    ensures faults { S.faults sink.old ≤ S.faults sink.new }
    ensures later { S.later sink.old sink.new }
{
    write_report(sink, &net.links)
}

// The kind of an answer.
fn kind(event: Event) -> NextKind
    ensures { result ≡ kind_of event }
{
    match event {
        Event::Arrived {
            link: _,
            peer: _,
            local: _,
        } => NextKind::Event,
        Event::Readable(_) => NextKind::Event,
        Event::Writable(_) => NextKind::Event,
        Event::Idle => NextKind::Idle,
        Event::Over => NextKind::Over,
        Event::NoMemory => NextKind::NoMemory,
    }
}

// The count of failed calls after a read.
fn count_read(got: Got, faults: u64) -> u64
    ensures count { (buf : List ℕ) → result ≡ counted (read_act got buf) faults }
    ensures cause { GotCause got faults result }
    ensures more { faults ≤ result }
{
    match got {
        Got::Failed => faults.saturating_add(1),
        _ => faults,
    }
}

impl Net for ScriptNet {
    ghost use Rattle.script_net.specs.Playing.{Playing};
    ghost use Rattle.script_net.specs.Later.{IsLater-same, IsLater-more, IsLater-faults, IsLater-waits, IsLater-left};

    ghost tells = { Unit {0} };

    ghost trace = { λ net. net.game.trace };

    ghost faults = { λ net. net.faults };

    ghost wait_faults = { λ net. net.waited.faults };

    ghost last = { λ net. net.last };

    ghost ends = { Unit {0} };

    ghost left = { λ net. events_left net.game.left };

    ghost calls = { λ net. net.calls };

    ghost room = { λ net. net.room };

    ghost links = { λ net. length net.game.sides };

    ghost later = { IsLater };

    ghost later_same = { IsLater-same };

    ghost later_later = { IsLater-more };

    ghost later_faults = { IsLater-faults };

    ghost later_wait_faults = { IsLater-waits };

    ghost later_left = { λ a b ends later. IsLater-left a b later };

    /// Plays the next step whose link is open. A step without memory is not played.
    fn next(&mut self) -> Event
        ensures trace { Unit {0} → self.new.game.trace ≡ event_tells result self.old.game.trace }
        ensures fresh { Unit {0} → IsFresh result self.old.game.trace }
        ensures links { IsNumbered result (length self.old.game.sides) (length self.new.game.sides) }
        ensures last { self.new.last ≡ kind_of result }
        ensures left { Unit {0} → UsesEvent result (events_left self.old.game.left) (events_left self.new.game.left) }
        ensures calls { OnEvent result (1024 ≤ self.new.calls) }
        ensures room { OnEvent result (4096 ≤ self.new.room) }
        ensures faults { self.old.faults ≤ self.new.faults }
        ensures wait_faults { self.new.waited.faults ≡ self.old.waited.faults }
        ensures later { IsLater self.old self.new }
        ensures turns { Turns result self.old.game self.new.game }
        ensures kept { self.new.faults ≡ self.old.faults }
    {
        self.advance()
    }

    fn read(&mut self, link: Link, buf: &mut [u8]) -> Got
        requires some { 0 < length buf.old }
        requires known { link.0 < length self.old.game.sides }
        requires calls { 0 < self.old.calls }
        requires room { length buf.old ≤ self.old.room }
        ensures trace { Unit {0} → self.new.game.trace ≡ said link.0 (read_act result buf.new ∷ []) self.old.game.trace }
        ensures within { GotWithin result (length buf.new) }
        ensures cause { GotCause result self.old.faults self.new.faults }
        ensures faults { self.old.faults ≤ self.new.faults }
        ensures wait_faults { self.new.waited.faults ≡ self.old.waited.faults }
        ensures links { length self.new.game.sides ≡ length self.old.game.sides }
        ensures last { self.new.last ≡ self.old.last }
        ensures left { Unit {0} → events_left self.new.game.left ≤ events_left self.old.game.left }
        ensures calls { self.old.calls ≤ self.new.calls + 1 }
        ensures room { self.old.room ≤ self.new.room + length buf.new }
        ensures later { IsLater self.old self.new }
        ensures plays { self.new.game ≡ after (Reads link.0 (length buf.old)) self.old.game }
        ensures count { self.new.faults ≡ counted (read_act result buf.new) self.old.faults }
    {
        let got = self.links.read(link.0, buf);
        self.faults = count_read(got, self.faults);
        got
    }

    fn write(&mut self, link: Link, bytes: &[u8]) -> Took
        requires some { 0 < length bytes.now }
        requires known { link.0 < length self.old.game.sides }
        requires calls { 0 < self.old.calls }
        requires room { length bytes.now ≤ self.old.room }
        ensures trace { Unit {0} → self.new.game.trace ≡ said link.0 (write_act result bytes.now ∷ []) self.old.game.trace }
        ensures within { TookWithin result (length bytes.now) }
        ensures cause { TookCause result self.old.faults self.new.faults }
        ensures faults { self.old.faults ≤ self.new.faults }
        ensures wait_faults { self.new.waited.faults ≡ self.old.waited.faults }
        ensures links { length self.new.game.sides ≡ length self.old.game.sides }
        ensures last { self.new.last ≡ self.old.last }
        ensures left { Unit {0} → events_left self.new.game.left ≤ events_left self.old.game.left }
        ensures calls { self.old.calls ≤ self.new.calls + 1 }
        ensures room { self.old.room ≤ self.new.room + length bytes.now }
        ensures later { IsLater self.old self.new }
        ensures plays { self.new.game ≡ after (Writes link.0 bytes.now) self.old.game }
        ensures count { self.new.faults ≡ counted (write_act result bytes.now) self.old.faults }
    {
        if self.links.writes_fail(link.0 as usize) {
            self.links.fail_write(link.0);
            self.faults = self.faults.saturating_add(1);
            return Took::Failed;
        }
        let n = allowed(self.taker, link.0, bytes.len());
        self.links.write(link.0, bytes, n);
        self.room -= n;
        if n == 0 {
            return Took::NotYet;
        }
        Took::Bytes(n)
    }

    /// No line dials a link yet, so each connect fails.
    fn connect(&mut self, owner: Owner, to: Address) -> Dialled
        requires known { owner.conn < length self.old.game.sides }
        requires calls { 0 < self.old.calls }
        ensures trace { Unit {0} → self.new.game.trace ≡ said owner.conn (dial_act result owner to ∷ []) self.old.game.trace }
        ensures fresh { Unit {0} → IsFreshDial result self.old.game.trace }
        ensures links { IsNumberedDial result (length self.old.game.sides) (length self.new.game.sides) }
        ensures cause { DialCause result self.old.faults self.new.faults }
        ensures faults { self.old.faults ≤ self.new.faults }
        ensures wait_faults { self.new.waited.faults ≡ self.old.waited.faults }
        ensures last { self.new.last ≡ self.old.last }
        ensures left { Unit {0} → events_left self.new.game.left ≤ events_left self.old.game.left }
        ensures calls { self.old.calls ≤ self.new.calls + 1 }
        ensures room { self.old.room ≤ self.new.room }
        ensures later { IsLater self.old self.new }
        ensures plays { self.new.game ≡ after (Connects owner to) self.old.game }
        ensures count { self.new.faults ≡ counted (dial_act result owner to) self.old.faults }
    {
        self.faults = self.faults.saturating_add(1);
        self.links.fail_connect(owner, to);
        Dialled::Failed
    }

    fn close(&mut self, link: Link, ending: Ending)
        requires known { link.0 < length self.old.game.sides }
        requires calls { 0 < self.old.calls }
        ensures trace { Unit {0} → self.new.game.trace ≡ said link.0 (closed ending ∷ []) self.old.game.trace }
        ensures faults { self.old.faults ≤ self.new.faults }
        ensures wait_faults { self.new.waited.faults ≡ self.old.waited.faults }
        ensures links { length self.new.game.sides ≡ length self.old.game.sides }
        ensures last { self.new.last ≡ self.old.last }
        ensures left { Unit {0} → events_left self.new.game.left ≤ events_left self.old.game.left }
        ensures calls { self.old.calls ≤ self.new.calls + 1 }
        ensures room { self.old.room ≤ self.new.room }
        ensures later { IsLater self.old self.new }
        ensures plays { self.new.game ≡ after (Closes link.0 ending) self.old.game }
        ensures kept { self.new.faults ≡ self.old.faults }
    {
        self.links.close(link.0, ending);
    }
}

impl Waits for ScriptNet {
    ghost use Rattle.script_net.specs.Since.{IsSince-later, IsSince-more, IsSince-faults, IsSince-waits, IsSince-left};

    ghost since = { IsSince };

    ghost later_since = { IsSince-later };

    ghost since_since = { IsSince-more };

    ghost since_faults = { IsSince-faults };

    ghost since_wait_faults = { IsSince-waits };

    ghost since_left = { λ a b ends since. IsSince-left a b since };

    /// Whatever the address is, the clients of the script arrive.
    fn listen(&mut self, at: Address) -> Result<(), Fault>
        ensures cause { OnErr result (Rose self.old.faults self.new.faults) }
        ensures wait_cause { OnErr result (Rose self.old.waited.faults self.new.waited.faults) }
        ensures faults { self.old.faults ≤ self.new.faults }
        ensures wait_faults { self.old.waited.faults ≤ self.new.waited.faults }
        ensures wait_kept { OnOk result (self.new.waited.faults ≡ self.old.waited.faults) }
        ensures trace { Unit {0} → self.new.game.trace ≡ self.old.game.trace }
        ensures links { length self.new.game.sides ≡ length self.old.game.sides }
        ensures last { self.new.last ≡ self.old.last }
        ensures left { Unit {0} → events_left self.new.game.left ≤ events_left self.old.game.left }
        ensures calls { self.old.calls ≤ self.new.calls }
        ensures room { self.old.room ≤ self.new.room }
        ensures since { IsSince self.old self.new }
        ensures becomes { self.new ≡ after_listen result self.old }
        ensures planned { FailsAs result (plans_listen self.old.waited.listens self.old.waited.plan) }
    {
        let answer = self.waiting.listen();
        self.faults = count(answer, self.faults);
        answer
    }

    /// The next line is played when `next` is called.
    fn wait(&mut self) -> Result<(), Fault>
        ensures cause { OnErr result (Rose self.old.faults self.new.faults) }
        ensures wait_cause { OnErr result (Rose self.old.waited.faults self.new.waited.faults) }
        ensures faults { self.old.faults ≤ self.new.faults }
        ensures wait_faults { self.old.waited.faults ≤ self.new.waited.faults }
        ensures wait_kept { OnOk result (self.new.waited.faults ≡ self.old.waited.faults) }
        ensures trace { Unit {0} → self.new.game.trace ≡ self.old.game.trace }
        ensures links { length self.new.game.sides ≡ length self.old.game.sides }
        ensures last { self.new.last ≡ self.old.last }
        ensures left { Unit {0} → events_left self.new.game.left ≤ events_left self.old.game.left }
        ensures calls { self.old.calls ≤ self.new.calls }
        ensures room { self.old.room ≤ self.new.room }
        ensures since { IsSince self.old self.new }
        ensures becomes { self.new ≡ after_wait result self.old }
        ensures planned { FailsAs result (plans_wait self.old.waited.waits self.old.waited.plan) }
    {
        let answer = self.waiting.wait();
        self.faults = count(answer, self.faults);
        answer
    }
}
