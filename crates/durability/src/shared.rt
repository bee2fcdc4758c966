//! What the threads of a site share of its journal.
ghost use Rattle.std.specs.Prelude.{◌≡◌, ◌↔◌, [], true, Some, IsTrue};
ghost use Rattle.durability.specs.Counts.{IsProgress, IsProgressNow, begun, raised, with_course, ended, closed, is_open, is_shut, next_of};
ghost use Rattle.durability.specs.declared.counts.Course.TheVariants.{Failed};
ghost use Rattle.durability.specs.Holds.{Waited, Notes, Begins, Raises, Fails, Ends, Closes, Sees, Told};

use crate::counts::{Counts, Course, Next, Progress};
use histories::History;
use std::marker::Model;
use std::sync::atomic::{AtomicBool, AtomicU32, AtomicU64, Ordering};
use std::sync::{Condvar, CondvarTimeouts, Mutex, MutexGuard, Wait};
use std::thread;
use std::time::{Clock, Duration};

/// After how many milliseconds records are appended for which no exit waits.
const PAUSE_MILLISECONDS: u64 = 20;

/// After how many pauses without a record the thread that appends waits for the next one, for as long as that takes.
const IDLE_PAUSES: u64 = 50;

/// How often the thread that appends looks for an exit that waits before it sleeps, some 50 microseconds in all: a client
/// that has its reply mostly sends its next command by then, and to wake this thread would take it longer.
const LOOKS: u32 = 150;

/// How often an exit looks for its records to be durable before it sleeps, some 200 microseconds in all: a fast disk takes no
/// longer for a sync.
const EXIT_LOOKS: u32 = 600;

/// How many exits look at most, of those that wait at one time.
const FEW: u32 = 2;

/// How many exits at most sleep at once after one looked in vain.
const LONGEST_REST: u32 = 63;

/// How many records of the journal were made and how many of them are durable, for the threads of a site.
#[derive(Drop)]
pub struct Durability {
    counts: Mutex<Counts>,
    /// Whether an exit waits since the thread that appends looked last, for a look without the lock, here and below. It may
    /// be out of date: the counts decide.
    is_asked: AtomicBool,
    /// How many records are durable.
    raised_to: AtomicU64,
    /// How many exits wait.
    waiting: AtomicU32,
    /// How many exits slept at once after one looked in vain, and how many of the next ones will.
    rest: AtomicU32,
    resting: AtomicU32,
    /// Notified when an exit waits, and of the end.
    asked: Condvar,
    /// Notified when records became durable, and once no more will.
    raised: Condvar,
}

/// The counts under their lock. No other lock is taken while it is held.
#[derive(Drop)]
pub struct Held<'a> {
    counts: MutexGuard<'a, Counts>,
}

impl<'a> Model for Held<'a> {
    ghost use Rattle.durability.specs.Counts.{CountsValue};

    ghost Value = { CountsValue };

    ghost view = { λ held. held.counts.value };
}

impl Durability {
    /// Of an empty journal.
    pub fn new() -> Durability {
        Durability {
            counts: Mutex::new(Counts::new(0, 0, 0)),
            is_asked: AtomicBool::new(false),
            raised_to: AtomicU64::new(0),
            waiting: AtomicU32::new(0),
            rest: AtomicU32::new(0),
            resting: AtomicU32::new(0),
            asked: Condvar::new(),
            raised: Condvar::new(),
        }
    }

    fn hold<'a, R: Wait>(&'a self, rt: &R) -> Held<'a> {
        Held {
            counts: self.counts.lock(rt),
        }
    }

    /// So many records were made in all. For who has just made some, under the lock under which they are made. It wakes
    /// no thread but one that found none to append for a second. The list gets the counts before and after.
    pub fn note<R: Wait>(&self, rt: &R, made: u64, notes: &mut History<Counts>)
        ensures { Notes made notes.old.items notes.new.items }
    {
        let mut counts = self.counts.lock(rt);
        let begun = notes.and(&counts);
        let is_due = counts.note_made(made);
        *notes = begun.and(&counts);
        drop(counts);
        if is_due {
            self.asked.notify_one();
        }
    }

    /// Waits until all records are durable that were made by now. `false` if they will not be, since the journal has
    /// ended, or if it has failed: then nothing may be told any more. The list is for clauses, here and below: it gets
    /// the counts when the wait began, and when it ended.
    pub fn pass<'a, R: Wait>(&'a self, rt: &R, waits: &mut History<Held<'a>>) -> bool
        ensures { Waited waits.old.items result waits.new.items }
    {
        let mut held = self.hold(rt);
        let begun = waits.and(&held);
        let mark = held.ask();
        if held.is_awaited(mark) {
            self.is_asked.store(true, Ordering::Relaxed);
            self.asked.notify_one();
            held = self.await_mark(rt, held, mark);
        }
        *waits = begun.and(&held);
        held.is_open(mark)
    }

    /// Waits until the records up to this mark are durable, or will not be.
    fn await_mark<'a, R: Wait>(&'a self, rt: &R, held: Held<'a>, mark: u64) -> Held<'a> {
        let others = self.waiting.fetch_add(1, Ordering::Relaxed);
        let mut counts = held.counts;
        if others < FEW && self.may_look() {
            drop(counts);
            self.look_for(mark);
            counts = self.counts.lock(rt);
        }
        let counts = self
            .raised
            .wait_while(rt, counts, |counts| counts.is_awaited(mark));
        self.waiting.fetch_sub(1, Ordering::Relaxed);
        Held { counts }
    }

    /// Whether the next exit looks before it sleeps.
    fn may_look(&self) -> bool {
        let resting = self.resting.load(Ordering::Relaxed);
        if resting > 0 {
            self.resting.store(resting - 1, Ordering::Relaxed);
        }
        resting == 0
    }

    /// Looks for so many durable records, and lets other threads run after each look. Each time that this is in vain, twice
    /// as many exits sleep at once.
    fn look_for(&self, mark: u64) {
        for _ in 0..EXIT_LOOKS {
            if self.raised_to.load(Ordering::Relaxed) >= mark {
                self.rest.store(0, Ordering::Relaxed);
                return;
            }
            thread::yield_now();
        }
        let longer = self.rest.load(Ordering::Relaxed).saturating_mul(2);
        let rest = longer.saturating_add(1).min(LONGEST_REST);
        self.rest.store(rest, Ordering::Relaxed);
        self.resting.store(rest, Ordering::Relaxed);
    }

    /// Looks for an exit that waits, and lets other threads run after each look.
    fn look(&self) {
        for _ in 0..LOOKS {
            if self.is_asked.load(Ordering::Relaxed) {
                break;
            }
            thread::yield_now();
        }
        self.is_asked.store(false, Ordering::Relaxed);
    }

    /// Waits until the thread that appends has something to do, or a pause is over.
    fn await_work<'a, R: Wait + Clock>(&'a self, rt: &R) -> Held<'a> {
        let pause = Duration::from_millis(PAUSE_MILLISECONDS);
        let counts = self.counts.lock(rt);
        let (counts, _) = self
            .asked
            .wait_timeout_while(rt, counts, pause, |counts| counts.next(false).is_none());
        Held { counts }
    }

    /// Waits until there is something to do, and says what.
    fn await_next<'a, R: Wait + Clock>(&'a self, rt: &R) -> (Held<'a>, Next)
        ensures { next_of true result.0 ≡ Some result.1 }
    {
        self.look();
        for _ in rt.forever() {
            for _ in 0..IDLE_PAUSES {
                let held = self.await_work(rt);
                if let Some(next) = held.next() {
                    return (held, next);
                }
            }
            self.await_record(rt);
        }
        unreachable!()
    }

    /// Waits until a record is made, or the end, unless one is not durable yet.
    fn await_record<R: Wait>(&self, rt: &R) {
        let mut counts = self.counts.lock(rt);
        counts.park();
        let _ = self
            .asked
            .wait_while(rt, counts, |counts| counts.is_parked());
    }

    /// The journal has failed. No exit opens any more, for good. The list gets the counts before and after.
    pub fn fail<'a, R: Wait>(&'a self, rt: &R, holds: &mut History<Held<'a>>)
        ensures { Fails holds.old.items holds.new.items }
    {
        let mut held = self.hold(rt);
        let begun = holds.and(&held);
        held.fail();
        *holds = begun.and(&held);
        drop(held);
        self.wake_all();
    }

    /// The thread that appends is to append what is left, and to end. The list gets the counts before and after.
    pub fn end<'a, R: Wait>(&'a self, rt: &R, holds: &mut History<Held<'a>>)
        ensures { Ends holds.old.items holds.new.items }
    {
        let mut held = self.hold(rt);
        let begun = holds.and(&held);
        held.end();
        *holds = begun.and(&held);
        drop(held);
        self.wake_all();
    }

    fn wake_all(&self) {
        self.asked.notify_all();
        self.raised.notify_all();
    }

    /// Whether no exit opens any more, since the records that were made will not be durable. The list gets the counts.
    pub fn is_shut<'a, R: Wait>(&'a self, rt: &R, holds: &mut History<Held<'a>>) -> bool
        ensures { Sees (λ counts. result ≡ is_shut counts) holds.old.items holds.new.items }
    {
        let held = self.hold(rt);
        *holds = holds.and(&held);
        held.is_shut()
    }

    /// The list gets the counts.
    pub fn has_failed<'a, R: Wait>(&'a self, rt: &R, holds: &mut History<Held<'a>>) -> bool
        ensures { Sees (λ counts. IsTrue result ↔ (counts.course ≡ Failed)) holds.old.items holds.new.items }
    {
        let held = self.hold(rt);
        *holds = holds.and(&held);
        held.has_failed()
    }

    /// How far the journal is. The list gets the counts.
    pub fn progress<'a, R: Wait>(&'a self, rt: &R, holds: &mut History<Held<'a>>) -> Progress
        ensures sees { Sees (λ counts. IsProgress counts result) holds.old.items holds.new.items }
        ensures now { IsProgressNow result }
    {
        let held = self.hold(rt);
        *holds = holds.and(&held);
        held.progress()
    }

    /// For the one thread that appends.
    pub fn raiser<'a>(&'a self) -> Raiser<'a>
        ensures { result ≡ [] }
    {
        Raiser {
            durability: self,
            holds: History::new(),
        }
    }
}

impl Held<'_> {
    fn ask(&mut self) -> u64
        ensures mark { result ≡ self.old.made }
    {
        self.counts.ask()
    }

    fn is_awaited(&self, mark: u64) -> bool {
        self.counts.is_awaited(mark)
    }

    fn is_open(&self, mark: u64) -> bool
        ensures { result ≡ is_open mark self.now }
    {
        self.counts.is_open(mark)
    }

    fn is_shut(&self) -> bool
        ensures { result ≡ is_shut self.now }
    {
        self.counts.is_shut()
    }

    fn has_failed(&self) -> bool
        ensures { IsTrue result ↔ (self.now.course ≡ Failed) }
    {
        matches!(self.counts.course(), Course::Failed)
    }

    fn progress(&self) -> Progress
        ensures { IsProgress self.now result }
    {
        self.counts.progress()
    }

    fn next(&self) -> Option<Next>
        ensures { result ≡ next_of true self.now }
    {
        self.counts.next(true)
    }

    fn begin(&mut self, records: u64, bytes: u64, time: u64)
        ensures { self.new ≡ begun records bytes time self.old }
    {
        self.counts.begin(records, bytes, time);
    }

    fn raise(&mut self, durable: u64, bytes: u64, time: u64)
        ensures { self.new ≡ raised durable bytes time self.old }
    {
        self.counts.raise(durable, bytes, time);
    }

    fn fail(&mut self)
        ensures { self.new ≡ with_course Failed self.old }
    {
        self.counts.fail();
    }

    fn end(&mut self)
        ensures { self.new ≡ with_course (ended self.old.course) self.old }
    {
        self.counts.end();
    }

    fn close(&mut self)
        ensures { self.new ≡ with_course (closed self.old.course) self.old }
    {
        self.counts.close();
    }
}

/// What the one thread that appends has of a durability: nothing else raises the count of durable records. Before that
/// thread ends it calls `close` or `fail`, or exits may wait for good. A clause reads it as a list: the counts at the
/// beginning and at the end of each time that it held the lock to change them, and at each time that it asked what to
/// do.
#[derive(Drop)]
pub struct Raiser<'a> {
    durability: &'a Durability,
    holds: History<Held<'a>>,
}

impl<'a> Model for Raiser<'a> {
    ghost use Rattle.std.specs.Prelude.{List};
    ghost use Rattle.durability.specs.Counts.{CountsValue};

    ghost Value = { List CountsValue };

    ghost view = { λ raiser. raiser.holds.items };
}

impl<'a> Raiser<'a> {
    /// Begins with a journal that has so many records in so many bytes, all of them durable since this time in
    /// milliseconds. More may have been noted before.
    pub fn begin<R: Wait>(&mut self, rt: &R, records: u64, bytes: u64, time: u64)
        ensures { Begins records bytes time self.old self.new }
    {
        let mut held = self.durability.hold(rt);
        let begun = self.holds.and(&held);
        held.begin(records, bytes, time);
        self.holds = begun.and(&held);
    }

    /// Waits until there is something to do: an exit waits for records that are not durable, or some were not durable
    /// for a pause, or the end was asked for.
    pub fn next<R: Wait + Clock>(&mut self, rt: &R) -> Next
        ensures { Told self.old result self.new }
    {
        let (held, next) = self.durability.await_next(rt);
        self.holds = self.holds.and(&held);
        next
    }

    /// So many of the records that were made are durable, in so many bytes, since this time in milliseconds. Wakes the
    /// exits that wait.
    pub fn raise<R: Wait>(&mut self, rt: &R, durable: u64, bytes: u64, time: u64)
        ensures { Raises durable bytes time self.old self.new }
    {
        let mut held = self.durability.hold(rt);
        let begun = self.holds.and(&held);
        held.raise(durable, bytes, time);
        self.holds = begun.and(&held);
        drop(held);
        self.durability.raised_to.store(durable, Ordering::Relaxed);
        self.durability.raised.notify_all();
    }

    /// The journal has failed: as `Durability::fail`.
    pub fn fail<R: Wait>(&mut self, rt: &R)
        ensures { Fails self.old self.new }
    {
        self.durability.fail(rt, &mut self.holds);
    }

    /// Nothing is appended any more. An exit that waits for more than is durable does not open.
    pub fn close<R: Wait>(&mut self, rt: &R)
        ensures { Closes self.old self.new }
    {
        let mut held = self.durability.hold(rt);
        let begun = self.holds.and(&held);
        held.close();
        self.holds = begun.and(&held);
        drop(held);
        self.durability.wake_all();
    }
}
