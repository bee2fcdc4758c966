//! The lines that wait to be sent to one peer.
ghost use Rattle.std.specs.Prelude.{◌≡◌, ◌+◌, ◌≤◌, ◌==◌, false, true, [], ◌∷◌, ◌++◌, length, take, drop};
ghost use Rattle.std.specs.Prelude.{IfOk, IfSome, IfNone};
ghost use Rattle.std.specs.List.{All};
ghost use Rattle.entry_codec.specs.Pieces.{IsLine};
ghost use Rattle.peer_links.specs.Outboxes.{Puts, Batches, TakesOldest, IsReady, IsOver, is_idle, front_in};
ghost use Rattle.peer_links.specs.Sources.{AreLines};

use crate::source::{Batch, LineSource};
use circular_buffer::HeapCircularBuffer;
use rights_types::OutOfMemory;
use std::alloc::{Allocator, Global};
use std::marker::Model;
use std::sync::atomic::{AtomicBool, Ordering};
use std::sync::{Condvar, CondvarTimeouts, Mutex, MutexGuard, Wait};
use std::time::{Clock, Duration};

/// The greatest number of lines that wait in an outbox.
pub const OUTBOX_LINES: usize = 256;

/// Why a line was dropped instead of queued, in the order in which the causes are checked.
#[derive(Clone, Copy, Debug, PartialEq, Eq)]
pub enum PutError {
    /// The outbox has ended.
    Ended,
    /// `OUTBOX_LINES` lines wait.
    Full,
}

/// The lines that wait, the oldest first, and whether the outbox has ended.
#[derive(Drop)]
pub(crate) struct Queue<A: Allocator> {
    lines: HeapCircularBuffer<Vec<u8, A>, A>,
    ended: bool,
}

impl<A: Allocator> Model for Queue<A> {
    ghost use Rattle.std.specs.Prelude.{◌≡◌, ◌≤◌, List, map, length};
    ghost use Rattle.std.specs.List.{All};
    ghost use Rattle.entry_codec.specs.Pieces.{IsLine};
    ghost use Rattle.peer_links.specs.declared.outbox.TheConstants.{OUTBOX_LINES};
    ghost use Rattle.peer_links.specs.Outboxes.{Waiting};

    ghost Value = { Waiting };

    ghost view = { λ q. record { lines = map (λ line. line.items) q.lines.items; ended = q.ended } };

    ghost invariant = { λ q. (q.lines.capacity ≡ OUTBOX_LINES) × (length q.lines.items ≤ OUTBOX_LINES)
        × All IsLine (map (λ line. line.items) q.lines.items) };
}

impl<A: Allocator> Queue<A> {
    /// An empty queue, with all the memory that it will ever use.
    fn new(alloc: A) -> Result<Queue<A>, OutOfMemory>
        ensures { IfOk result (λ q. q ≡ record { lines = []; ended = false }) }
    {
        Ok(Queue {
            lines: HeapCircularBuffer::with_capacity(alloc, OUTBOX_LINES)?,
            ended: false,
        })
    }

    fn is_empty(&self) -> bool
        ensures { result ≡ (length self.now.lines == 0) }
    {
        self.lines.is_empty()
    }

    /// Whether no line waits and the outbox has not ended.
    fn is_idle(&self) -> bool
        ensures { result ≡ is_idle self.now }
    {
        self.is_empty() && !self.ended
    }

    fn len(&self) -> usize
        ensures value { result ≡ length self.now.lines }
        ensures few { result ≤ OUTBOX_LINES }
    {
        self.lines.len()
    }

    fn put(&mut self, line: Vec<u8, A>) -> Result<(), PutError>
        requires { IsLine line.items }
        ensures { Puts self.old line.items result self.new }
    {
        if self.ended {
            return Err(PutError::Ended);
        }
        if self.lines.try_push_back(line).is_err() {
            return Err(PutError::Full);
        }
        Ok(())
    }

    /// Takes the oldest line. `None` if no line waits.
    fn take(&mut self) -> Option<Vec<u8, A>>
        ensures some { IfSome result (λ line. self.old ≡ record self.new { lines = line.items ∷ self.new.lines }) }
        ensures line { IfSome result (λ line. IsLine line.items) }
        ensures none { IfNone result ((self.old.lines ≡ []) × (self.new ≡ self.old)) }
        ensures left { self.new ≡ record self.old { lines = drop 1 self.old.lines } }
    {
        self.lines.pop_front()
    }

    /// Drops this number of the oldest lines, or all if there are fewer.
    fn drop_front(&mut self, count: usize)
        ensures { self.new ≡ record self.old { lines = drop count self.old.lines } }
    {
        'lines: for _ in 0..count {
            let _line = self.take();
        }
    }

    /// Copies the longest prefix of the lines that fits, and returns how many bytes were copied.
    fn copy_front(&self, room: &mut [u8]) -> usize
        ensures within { result ≤ length room.old }
        ensures same { length room.new ≡ length room.old }
        ensures copied { AreLines (front_in (length room.old) self.now.lines) (take result room.new) }
    {
        let mut filled = 0;
        let mut count = 0;
        'lines: while let Some(line) = self.lines.get(count) {
            if line.len() > room.len() - filled {
                break;
            }
            copy_at(room, filled, line);
            filled += line.len();
            count += 1;
        }
        filled
    }

    /// The next batch to write.
    fn batch(&mut self, room: &mut [u8]) -> Batch<A>
        ensures same { length room.new ≡ length room.old }
        ensures batch { Batches self.old result room.new self.new }
    {
        let filled = self.copy_front(room);
        if filled > 0 {
            return Batch::Copied(filled);
        }
        match self.take() {
            Some(line) => Batch::Large(line),
            None => Batch::Over,
        }
    }

    fn end(&mut self)
        ensures { self.new ≡ record self.old { ended = true } }
    {
        self.ended = true;
    }

    /// Drops the lines that wait.
    fn clear(&mut self)
        ensures { self.new ≡ record self.old { lines = [] } }
    {
        self.lines.clear();
    }
}

/// Copies the text to this offset of the buffer.
fn copy_at(room: &mut [u8], at: usize, text: &[u8])
    requires { at + length text.now ≤ length room.old }
    ensures same { length room.new ≡ length room.old }
    ensures front { take (at + length text.now) room.new ≡ take at room.old ++ text.now }
{
    room[at..at + text.len()].copy_from_slice(text);
}

/// The lines that wait to be sent to one peer, at most `OUTBOX_LINES`. Many threads may put lines; one thread
/// takes or writes them.
#[derive(Drop)]
pub struct Outbox<A: Allocator = Global> {
    queue: Mutex<Queue<A>>,
    /// Notified when lines were put, and of the end.
    changed: Condvar,
    /// Notified when lines were taken.
    taken: Condvar,
    /// Whether the thread that takes lines would not block, for a look without the lock. It may be out of date.
    is_ready: AtomicBool,
}

/// The lines that wait in an outbox, under its lock. When it is dropped, the threads are woken that wait for what was
/// done: the one that takes lines, and those that wait until none is left.
pub struct OutboxLines<'a, A: Allocator = Global> {
    queue: MutexGuard<'a, Queue<A>>,
    outbox: &'a Outbox<A>,
    /// How many lines waited when the lock was taken.
    count: usize,
}

impl<'a, A: Allocator> Model for OutboxLines<'a, A> {
    ghost use Rattle.peer_links.specs.Outboxes.{Waiting};

    ghost Value = { Waiting };

    ghost view = { λ lines. lines.queue.value };
}

impl<A: Allocator> OutboxLines<'_, A> {
    /// Puts a line after the others. A line that is refused is lost. Errors, in this order: `Ended`, `Full`.
    pub fn put(&mut self, line: Vec<u8, A>) -> Result<(), PutError>
        requires { IsLine line.items }
        ensures { Puts self.old line.items result self.new }
    {
        self.queue.put(line)
    }

    /// Takes the oldest line. `None` if no line waits, and none will.
    fn take(&mut self) -> Option<Vec<u8, A>>
        requires { IsReady self.old }
        ensures some { IfSome result (λ line. TakesOldest self.old line.items self.new) }
        ensures line { IfSome result (λ line. IsLine line.items) }
        ensures none { IfNone result (IsOver self.old × (self.new ≡ self.old)) }
    {
        self.queue.take()
    }

    /// The next batch to write. Lines that are copied still wait.
    fn batch(&mut self, room: &mut [u8]) -> Batch<A>
        requires { IsReady self.old }
        ensures same { length room.new ≡ length room.old }
        ensures batch { Batches self.old result room.new self.new }
    {
        self.queue.batch(room)
    }

    /// Drops this number of the oldest lines, or all if there are fewer.
    fn drop_front(&mut self, count: usize)
        ensures { self.new ≡ record self.old { lines = drop count self.old.lines } }
    {
        self.queue.drop_front(count);
    }

    /// Ends the outbox: it refuses every later line.
    fn end(&mut self)
        ensures { self.new ≡ record self.old { ended = true } }
    {
        self.queue.end();
    }

    /// Ends the outbox, and drops the lines that wait.
    fn abandon(&mut self)
        ensures { self.new ≡ record { lines = []; ended = true } }
    {
        self.end();
        self.queue.clear();
    }

    /// How many lines wait, 0 to `OUTBOX_LINES`.
    fn len(&self) -> usize
        ensures value { result ≡ length self.now.lines }
        ensures few { result ≤ OUTBOX_LINES }
    {
        self.queue.len()
    }
}

impl<A: Allocator> Drop for OutboxLines<'_, A> {
    fn drop(self) {
        let Self {
            queue,
            outbox,
            count,
        } = self;
        let is_ready = !queue.is_idle();
        if queue.len() < count {
            outbox.is_ready.store(is_ready, Ordering::Release);
            drop(queue);
            outbox.taken.notify_all();
        } else {
            drop(queue);
            // Without the lock: whoever sees this takes the lock next.
            outbox.is_ready.store(is_ready, Ordering::Release);
        }
        // Who waits, waits for this alone: a look at an idle outbox wakes nobody.
        if is_ready {
            outbox.changed.notify_one();
        }
    }
}

/// The calls of an outbox are calls of `OutboxLines` under its lock, which hides the lines. So what they do with those
/// is said there, and of them only what holds whatever waits.
impl<A: Allocator> Outbox<A> {
    /// An empty outbox, with all the memory that it will ever use.
    pub fn new(alloc: A) -> Result<Outbox<A>, OutOfMemory> {
        Ok(Outbox {
            queue: Mutex::new(Queue::new(alloc)?),
            changed: Condvar::new(),
            taken: Condvar::new(),
            is_ready: AtomicBool::new(false),
        })
    }

    /// Locks the lines that wait. Waits until no other thread holds the lock.
    pub fn lock<'a, R: Wait>(&'a self, rt: &R) -> OutboxLines<'a, A> {
        self.lines(self.queue.lock(rt))
    }

    /// Puts one line, as `OutboxLines::put` does. The lock hides which lines waited before.
    pub fn put<R: Wait>(&self, rt: &R, line: Vec<u8, A>) -> Result<(), PutError>
        requires { IsLine line.items }
    {
        self.lock(rt).put(line)
    }

    /// Takes the oldest line. Blocks until there is one or the outbox has ended. `None` if it has ended and no line
    /// waits.
    pub fn take<R: Wait>(&self, rt: &R) -> Option<Vec<u8, A>>
        ensures { IfSome result (λ line. IsLine line.items) }
    {
        self.ready(rt).take()
    }

    /// Blocks until no line waits, but not longer than this time. `false` if some wait then.
    pub fn wait_until_empty<R: Wait + Clock>(&self, rt: &R, time: Duration) -> bool {
        let (queue, _) = self
            .taken
            .wait_timeout_while(rt, self.queue.lock(rt), time, |queue| !queue.is_empty());
        queue.is_empty()
    }

    /// Whether a line waits or the outbox has ended, as seen without the lock: it may be out of date.
    pub fn seems_ready(&self) -> bool {
        self.is_ready.load(Ordering::Acquire)
    }

    /// How many lines wait, 0 to `OUTBOX_LINES`.
    pub fn len<R: Wait>(&self, rt: &R) -> usize
        ensures { result ≤ OUTBOX_LINES }
    {
        self.lock(rt).len()
    }

    /// Ends the outbox: it refuses every later line.
    pub fn end<R: Wait>(&self, rt: &R) {
        self.lock(rt).end();
    }

    /// Ends the outbox, and drops the lines that wait.
    pub fn abandon<R: Wait>(&self, rt: &R) {
        self.lock(rt).abandon();
    }

    /// Locks the lines once one waits or the outbox has ended.
    fn ready<'a, R: Wait>(&'a self, rt: &R) -> OutboxLines<'a, A>
        ensures { IsReady result }
    {
        let queue = self
            .changed
            .wait_while(rt, self.queue.lock(rt), |queue| queue.is_idle());
        self.lines(queue)
    }

    /// The lines, under this lock.
    fn lines<'a>(&'a self, queue: MutexGuard<'a, Queue<A>>) -> OutboxLines<'a, A>
        ensures { result ≡ queue.entry.value }
    {
        OutboxLines {
            count: queue.len(),
            queue,
            outbox: self,
        }
    }
}

/// The lines that wait, for the one thread that writes them. Other threads may put lines between its calls, so the
/// contract says only that the lines are whole.
impl<A: Allocator> LineSource for &Outbox<A> {
    type Memory = A;

    ghost waits = { λ _ lines. All IsLine lines };

    ghost takes = { λ _ line _. IsLine line };

    ghost is_over = { λ _. Unit {0} };

    fn next_batch<R: Wait>(&mut self, rt: &R, room: &mut [u8]) -> Batch<A> {
        self.ready(rt).batch(room)
    }

    fn take_front<R: Wait>(&mut self, rt: &R, count: usize) {
        self.lock(rt).drop_front(count);
    }
}
