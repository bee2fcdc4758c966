//! What the lock of a durability protects.
ghost use Rattle.std.specs.Prelude.{◌≡◌};
ghost use Rattle.durability.specs.Counts.{all_durable, begun, noted, asked, raised, with_course, ended, closed};
ghost use Rattle.durability.specs.Counts.{IsProgress, is_awaited, is_open, is_shut, next_batch, next_of};
ghost use Rattle.durability.specs.declared.counts.Course.TheVariants.{Runs, Failed};

use std::marker::Model;
use std::mem;

/// What becomes of a journal.
#[derive(Clone, Copy, Debug, PartialEq, Eq)]
pub enum Course {
    /// Records are appended.
    Runs,
    /// What is left is to be appended, and then no more.
    Ends,
    /// It has ended: no further record will be durable.
    Over,
    /// It has failed: nothing is told any more.
    Failed,
}

/// What the thread that appends is to do next.
#[derive(Clone, Copy, Debug, PartialEq, Eq)]
pub enum Next {
    /// To append: an exit waits for records that are not durable.
    Wanted,
    /// To append: no exit waits, but some records were not durable for a pause.
    Due,
    /// To append what is left, and to end.
    End,
    /// To end at once: the journal has failed or has ended.
    Stop,
}

/// How far a journal is, at one moment.
#[derive(Clone, Copy, Debug, PartialEq, Eq)]
pub struct Progress {
    /// How many records were made for it in all, those of earlier processes among them.
    pub records: u64,
    /// How many of them are durable.
    pub durable: u64,
    /// The bytes of the file up to the last sync.
    pub bytes: u64,
    /// The time of that sync, in milliseconds, as the thread that appends counts them; 0 if there was none.
    pub synced: u64,
}

/// How many records were made, and how many of them are durable: what the lock of a durability protects. Other crates see
/// it in lists alone.
#[derive(Drop)]
pub struct Counts {
    made: u64,
    /// How many of them an exit waits for.
    wanted: u64,
    durable: u64,
    /// The bytes of the file up to the last sync, and the time of that sync.
    bytes: u64,
    synced: u64,
    course: Course,
    /// Whether the thread that appends waits for the next record, for as long as that takes.
    is_parked: bool,
}

impl Model for Counts {
    ghost use Rattle.std.specs.Prelude.{◌≤◌};
    ghost use Rattle.durability.specs.Counts.{CountsValue};

    ghost Value = { CountsValue };

    ghost view = { λ c. record {
      made = c.made;
      wanted = c.wanted;
      durable = c.durable;
      bytes = c.bytes;
      synced = c.synced;
      course = c.course;
    } };

    ghost invariant = { λ c. (c.durable ≤ c.made) × (c.wanted ≤ c.made) };
}

impl Counts {
    /// Of a journal that has so many records, all of them durable, in so many bytes, since this time.
    pub(crate) fn new(records: u64, bytes: u64, time: u64) -> Counts
        ensures { result ≡ all_durable records bytes time }
    {
        Counts {
            made: records,
            wanted: records,
            durable: records,
            bytes,
            synced: time,
            course: Course::Runs,
            is_parked: false,
        }
    }

    /// The journal has so many records, all of them durable, in so many bytes, since this time.
    pub(crate) fn begin(&mut self, records: u64, bytes: u64, time: u64)
        ensures { self.new ≡ begun records bytes time self.old }
    {
        let made = self.made.max(records);
        *self = Counts::new(records, bytes, time);
        self.made = made;
    }

    pub(crate) fn progress(&self) -> Progress
        ensures { IsProgress self.now result }
    {
        Progress {
            records: self.made,
            durable: self.durable,
            bytes: self.bytes,
            synced: self.synced,
        }
    }

    pub(crate) fn course(&self) -> Course
        ensures { result ≡ self.now.course }
    {
        self.course
    }

    /// So many records were made in all. Returns whether the thread that appends was parked, and is to be woken.
    pub(crate) fn note_made(&mut self, made: u64) -> bool
        ensures { self.new ≡ noted made self.old }
    {
        self.made = self.made.max(made);
        self.durable < self.made && mem::replace(&mut self.is_parked, false)
    }

    /// The thread that appends waits until a record is made, or the end, if all are durable.
    pub(crate) fn park(&mut self)
        ensures { self.new ≡ self.old }
    {
        self.is_parked = self.durable == self.made && matches!(self.course, Course::Runs);
    }

    pub(crate) fn is_parked(&self) -> bool {
        self.is_parked
    }

    /// Asks for all records that were made: returns their mark, which is how many they are.
    pub(crate) fn ask(&mut self) -> u64
        ensures mark { result ≡ self.old.made }
        ensures asks { self.new ≡ asked self.old }
    {
        self.wanted = self.made;
        self.made
    }

    /// Whether an exit goes on waiting for the records up to this mark.
    pub(crate) fn is_awaited(&self, mark: u64) -> bool
        ensures { result ≡ is_awaited mark self.now }
    {
        self.durable < mark && matches!(self.course, Course::Runs | Course::Ends)
    }

    /// Whether an exit may open that needs the records up to this mark.
    pub(crate) fn is_open(&self, mark: u64) -> bool
        ensures { result ≡ is_open mark self.now }
    {
        mark <= self.durable && !matches!(self.course, Course::Failed)
    }

    /// Whether an exit that needs all records that were made will never open.
    pub(crate) fn is_shut(&self) -> bool
        ensures { result ≡ is_shut self.now }
    {
        !self.is_awaited(self.made) && !self.is_open(self.made)
    }

    /// So many of the records that were made are durable, in so many bytes, since this time.
    pub(crate) fn raise(&mut self, durable: u64, bytes: u64, time: u64)
        ensures { self.new ≡ raised durable bytes time self.old }
    {
        self.durable = self.durable.max(durable.min(self.made));
        self.bytes = bytes;
        self.synced = time;
    }

    pub(crate) fn fail(&mut self)
        ensures { self.new ≡ with_course Failed self.old }
    {
        self.is_parked = false;
        self.course = Course::Failed;
    }

    /// What is left is to be appended, unless the journal has ended or failed.
    pub(crate) fn end(&mut self)
        ensures { self.new ≡ with_course (ended self.old.course) self.old }
    {
        self.is_parked = false;
        if let Course::Runs = self.course {
            self.course = Course::Ends;
        }
    }

    /// The journal has ended, unless it has failed.
    pub(crate) fn close(&mut self)
        ensures { self.new ≡ with_course (closed self.old.course) self.old }
    {
        if !matches!(self.course, Course::Failed) {
            self.course = Course::Over;
        }
    }

    /// What the thread that appends is to do. `None` if it is to wait. `is_late` says that a pause is over.
    pub(crate) fn next(&self, is_late: bool) -> Option<Next>
        ensures { result ≡ next_of is_late self.now }
    {
        match self.course {
            Course::Failed | Course::Over => Some(Next::Stop),
            Course::Ends => Some(Next::End),
            Course::Runs => self.next_batch(is_late),
        }
    }

    fn next_batch(&self, is_late: bool) -> Option<Next>
        ensures { result ≡ next_batch is_late self.now }
    {
        if self.durable < self.wanted {
            Some(Next::Wanted)
        } else if is_late && self.durable < self.made {
            Some(Next::Due)
        } else {
            None
        }
    }
}
