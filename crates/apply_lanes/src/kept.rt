//! The value under the lock of a shared desk: a desk, with the four counters of what it did.
ghost use Rattle.std.specs.Prelude.{◌≡◌, ◌≢◌, ◌+◌, ◌≤◌, ◌<◌, true, false, [], ◌∷◌, ◌++◌, Option, Some, None, IfOk, IfErr};
ghost use Rattle.std.specs.Prelude.{IfSome, IsOk, Ok, OnOk, OnErr, MatchResult, length};
ghost use Rattle.rights_types.specs.Places.{at_site, set_site};
ghost use Rattle.rights_types.specs.Rights.{to};
ghost use Rattle.rights_protocol.specs.Retiring.{numbers_in};
ghost use Rattle.rights_book.specs.Books.{sites, peer};
ghost use Rattle.request_queue.specs.declared.queue.TheConstants.{SLOTS};
ghost use Rattle.site_core.specs.Ledgers.{ApplyKeeps};
ghost use Rattle.site_core.specs.Faults.{has_closed};
ghost use Rattle.site_core.specs.Calls.{DeskApplies};
ghost use Rattle.site_core.specs.Replaying.{HasLists};
ghost use Rattle.rights_protocol.specs.Crashes.{lists_of};
ghost use Rattle.rights_protocol.specs.Crashes.Record.{Applied as IsApplied};
ghost use Rattle.rights_protocol.specs.Invariant.{SiteInvariant};
ghost use Rattle.rights_protocol.specs.Schedules.LocalChange.{Apply as Applies};
ghost use Rattle.site_journal.specs.Batch.{records_in};
ghost use Rattle.apply_lanes.specs.Recorders.{IsHanded, with_lines};
ghost use Rattle.apply_lanes.specs.Keeping.{IsJournaled, all_recorded};
ghost use Rattle.apply_lanes.specs.Steps.{StepsBy, RecordsBy};
ghost use Rattle.apply_lanes.specs.Names.{id_of, AreBlank, IsUnused};
ghost use Rattle.apply_lanes.specs.Kepts.{one_less, seats_left, told_nothing};
ghost use Rattle.apply_lanes.specs.declared.names.TheConstants.{SEATS, APPLIERS};
ghost use Rattle.apply_lanes.specs.Views.{IsViewOf};
ghost use Rattle.apply_lanes.specs.Admissions.{Admits, GivesSeat, GivesClockSeat, GivesApplier};

use crate::applier::Applier;
use crate::gate::Gate;
use crate::kept::keys::unrecorded;
use crate::names::{APPLIERS, Blanks, DeskNames, IssuedBy, NumberOf, ReceivedBy, SEATS, SpentBy};
use crate::recorder::{RecordLost, Recorder};
use crate::seat::{Seat, SeatsFull};
use command_keys::KeyBook;
use request_queue::SLOTS;
use rights_types::{Entry, OutOfMemory, SiteId};
use site_core::Desk;
use site_journal::Batch;
use site_records::MAX_KEY_RECORD;
use std::alloc::{Allocator, Global};
use std::marker::Model;
use thread_parts::{DeskView, Outlet, Shard, SplitCounter};

mod keys;
mod lines;
mod replaying;
mod requests;

/// A desk under its lock, reached only through the guard of `SharedDesk::lock`. Its calls are those of the desk, with
/// the same results; in addition, what is issued and spent is counted for a seat.
#[derive(Drop)]
pub struct Kept<D: DeskNames, A: Allocator = Global> {
    pub(crate) desk: Desk<A>,
    pub(crate) issued: SplitCounter<IssuedBy<D>>,
    pub(crate) spent: SplitCounter<SpentBy<D>>,
    pub(crate) number: SplitCounter<NumberOf<D>>,
    pub(crate) received: SplitCounter<ReceivedBy<D>>,
    // For each site's log, whether an applier was given out.
    pub(crate) admitted: [bool; 16],
    // Whether the clock's seat was given out. Until then one shard of `issued` and one of `spent` is reserved for it.
    pub(crate) clock_given: bool,
    // Of all steps of the desk.
    pub(crate) records: Recorder,
    // `None` at a site that takes no keys.
    pub(crate) keys: Option<KeyBook<A>>,
}

impl<D: DeskNames, A: Allocator> Model for Kept<D, A> {
    ghost use Rattle.apply_lanes.specs.Kepts.{KeptValue, IsKept, book_of};

    ghost Value = { KeptValue };

    ghost view = { λ k. record {
      desk = k.desk;
      issued = k.issued;
      spent = k.spent;
      number = k.number;
      received = k.received;
      admitted = k.admitted;
      clock_given = k.clock_given;
      records = k.records.items;
      handed = k.records.handed;
      lines = k.records.lines;
      keys = book_of k.keys;
    } };

    ghost invariant = { λ k. IsKept D.id (record {
      desk = k.desk;
      issued = k.issued;
      spent = k.spent;
      number = k.number;
      received = k.received;
      admitted = k.admitted;
      clock_given = k.clock_given;
      records = k.records.items;
      handed = k.records.handed;
      lines = k.records.lines;
      keys = book_of k.keys;
    }) };
}

/// Why an origin gets no applier, in the order in which the causes are checked.
#[derive(Clone, Copy, Debug, PartialEq, Eq)]
pub enum AdmitCause {
    /// The system does not have that site.
    NoSuchSite,
    /// It is the desk's own site.
    SameSite,
    /// An applier of that origin was given out already.
    Taken,
}

/// An origin gets no applier. The outlet and the gate are returned.
#[derive(Drop)]
pub struct AdmitError<G: Gate, A: Allocator = Global> {
    pub cause: AdmitCause,
    pub outlet: Outlet<A>,
    pub gate: G,
}

/// What is missing when a desk is to stop, in the order in which it is checked.
#[derive(Clone, Copy, Debug, PartialEq, Eq)]
pub(crate) enum Missing {
    Seat,
    Applier,
}

/// The two shards of an applier: of the numbers applied, and of what was received.
pub(crate) type Admission<D> = (Shard<NumberOf<D>>, Shard<ReceivedBy<D>>);

impl<D: DeskNames, A: Allocator + Copy> Kept<D, A> {
    ghost use Rattle.apply_lanes.specs.Kepts.{KeptValue, IsKept, IsInBalance, CountsAll, book_of, raised};
    ghost use Rattle.apply_lanes.specs.Stops.{missing_of};

    /// A new desk, with no seat given out. Without keys it takes none.
    pub(crate) fn open(desk: Desk<A>, blanks: Blanks, keys: Option<KeyBook<A>>) -> Kept<D, A>
        requires id { D.id ≡ id_of desk blanks }
        requires blanks { AreBlank blanks }
        requires unused { IsUnused desk }
        ensures desk { result.desk ≡ desk }
        ensures seats { seats_left result ≡ SEATS }
        ensures clock { result.clock_given ≡ false }
        ensures appliers { result.number.left ≡ APPLIERS }
        ensures records { (result.records ≡ []) × (result.handed ≡ []) × (result.lines ≡ None) }
        ensures keys { result.keys ≡ book_of keys }
    {
        // For the proof: what a desk with an empty log issued, spent and received.
        let _ = (desk.site(), desk.sites());
        let _ = (desk.issued(), desk.spent(), desk.received());
        let Blanks {
            issued,
            spent,
            number,
            received,
        } = blanks;
        Kept {
            desk,
            issued: SplitCounter::open(issued, SEATS + 1),
            spent: SplitCounter::open(spent, SEATS + 1),
            number: SplitCounter::open(number, APPLIERS),
            received: SplitCounter::open(received, APPLIERS),
            admitted: [false; 16],
            clock_given: false,
            records: Recorder::new(),
            keys,
        }
    }

    /// The desk, for reading. Whenever the lock is free, it is in balance.
    pub fn desk(&self) -> &Desk<A>
        ensures value { result.now ≡ self.now.desk }
        ensures balance { IsInBalance self.now }
        ensures valid { IsKept D.id self.now }
        ensures few { length self.now.desk.queue.waiting ≤ SLOTS }
        ensures lists { HasLists (lists_of D.id.site self.now.records) self.now.desk }
        ensures protocol { SiteInvariant D.id.sites D.id.site self.now.desk.ledger.log.entries
            (lists_of D.id.site self.now.records).applied }
    {
        let desk = &self.desk;
        // For the proof: what the desk's readers say of its log and queue.
        let _ = desk.log();
        let _ = desk.queued();
        let _ = (desk.issued(), desk.spent(), desk.received(), desk.held());
        desk
    }

    /// A snapshot of the desk.
    pub fn view(&self) -> DeskView
        ensures { IsViewOf self.now.desk result }
    {
        let desk = &self.desk;
        DeskView {
            site: desk.site(),
            closed: desk.log().closed(),
            number: desk.number(),
            issued: desk.issued(),
            spent: desk.spent(),
            given: desk.given(),
            back: desk.taken_back(),
            received: desk.received(),
            held: desk.held(),
            queued: desk.queued(),
        }
    }

    /// Keeps a journal from now on, which has the records so far, and so many lines in all. The batch is where further
    /// ones wait.
    pub fn keep_journal(&mut self, alloc: Global, batch: Batch, made: u64)
        requires { records_in batch ≡ [] }
        ensures handed { self.new ≡ record self.old { handed = self.old.records; lines = Some made; keys = self.new.keys } }
        ensures keys { IsJournaled self.old.keys self.new.keys }
    {
        self.records.keep(alloc, batch, made);
        if let Some(book) = &mut self.keys {
            book.keep_journal();
        }
    }

    /// Hands over the lines of the records that wait for the journal, and behind them those of keys, for an empty batch.
    /// `None` without a journal. `RecordLost` once a record is missing there.
    pub fn hand_over(&mut self, empty: Batch) -> Result<Option<Batch>, RecordLost>
        requires { records_in empty ≡ [] }
        ensures some { IfOk result (λ found. IfSome found (λ batch.
            IsHanded self.old.handed self.old.records self.old.keys.unrecorded (records_in batch)
            × (self.new ≡ record self.old {
              handed = self.old.records;
              lines = with_lines self.old.lines (records_in batch);
              keys = all_recorded self.old.keys self.new.keys.room;
            }))) }
        ensures none { result ≡ Ok None → (self.new ≡ self.old) × (self.old.lines ≡ None) }
        ensures err { OnErr result (self.new ≡ self.old) }
    {
        let batch = self.records.hand_over(unrecorded(&self.keys), empty)?;
        if let Some(book) = &mut self.keys
            && batch.is_some()
        {
            book.clear_unrecorded();
        }
        Ok(batch)
    }

    /// How many lines were made for the journal in all, those that wait among them. Once one is lost, more than it ever
    /// gets.
    pub fn records_made(&self) -> u64
        ensures { CountsAll self.now result }
    {
        let keys = unrecorded(&self.keys).len();
        self.records.made().saturating_add(keys as u64)
    }

    /// How many bytes wait for the journal, at most.
    pub fn bytes_waiting(&self) -> usize {
        let keys = unrecorded(&self.keys).len();
        self.records
            .waiting()
            .saturating_add(keys.saturating_mul(MAX_KEY_RECORD))
    }

    /// A new seat. `SeatsFull` if none is left besides the clock's.
    pub(crate) fn seat(&mut self) -> Result<Seat<D>, SeatsFull>
        ensures seat { GivesSeat self.old result self.new }
        ensures before { IsKept D.id self.old }
        ensures after { IsKept D.id self.new }
    {
        let for_clock = u64::from(!self.clock_given);
        if self.issued.left() == for_clock {
            return Err(SeatsFull);
        }
        Ok(new_seat(&mut self.issued, &mut self.spent))
    }

    /// The clock's seat. `SeatsFull` if it was given out already. It does not count among those that `seat` gives out.
    pub(crate) fn clock_seat(&mut self) -> Result<Seat<D>, SeatsFull>
        ensures seat { GivesClockSeat self.old result self.new }
        ensures before { IsKept D.id self.old }
        ensures after { IsKept D.id self.new }
    {
        if self.clock_given {
            return Err(SeatsFull);
        }
        self.clock_given = true;
        Ok(new_seat(&mut self.issued, &mut self.spent))
    }

    // The shards for the applier of that origin.
    fn admit(&mut self, origin: SiteId) -> Result<Admission<D>, AdmitCause>
        ensures refused { MatchResult result (λ _. Admits D.id self.old.admitted origin None)
            (λ fault. Admits D.id self.old.admitted origin (Some fault)) }
        ensures ok { IfOk result (λ p. (p.0 ≡ 0) × (p.1 ≡ 0)
            × (self.new.admitted ≡ set_site self.old.admitted origin true)) }
        ensures before { IsKept D.id self.old }
        ensures after { IsKept D.id self.new }
        ensures shards { OnOk result (one_less self.old.number self.new.number
            × one_less self.old.received self.new.received) }
        ensures err { OnErr result (self.new ≡ self.old) }
        ensures rest { self.new ≡ record self.old {
          number = self.new.number;
          received = self.new.received;
          admitted = self.new.admitted;
        } }
    {
        if origin.number() > self.desk.sites() {
            return Err(AdmitCause::NoSuchSite);
        }
        if origin == self.desk.site() {
            return Err(AdmitCause::SameSite);
        }
        let place = origin.number() as usize - 1;
        if self.admitted[place] {
            return Err(AdmitCause::Taken);
        }
        let Some(number) = self.number.split() else {
            unreachable!()
        };
        let Some(received) = self.received.split() else {
            unreachable!()
        };
        self.admitted[place] = true;
        Ok((number, received))
    }

    /// The applier of that origin's log, whose entries arrive on this lane.
    pub(crate) fn applier<G: Gate, B: Allocator>(
        &mut self,
        origin: SiteId,
        outlet: Outlet<B>,
        gate: G,
    ) -> Result<Applier<D, G, B>, AdmitError<G, B>>
        requires { outlet.taken ≡ [] }
        ensures ok { IfOk result (λ a. GivesApplier D.id self.old origin outlet gate a self.new) }
        ensures err { IfErr result (λ e. Admits D.id self.old.admitted origin (Some e.cause) × (self.new ≡ self.old)) }
        ensures back { IfErr result (λ e. (e.outlet ≡ outlet) × (e.gate ≡ gate)) }
        ensures before { IsKept D.id self.old }
        ensures after { IsKept D.id self.new }
    {
        match self.admit(origin) {
            Ok((number, received)) => Ok(Applier {
                origin,
                outlet,
                gate,
                hand: None,
                ended: false,
                dropping: false,
                number,
                received,
            }),
            Err(cause) => Err(AdmitError {
                cause,
                outlet,
                gate,
            }),
        }
    }

    /// What is missing of all that was given out, if this number of seats and appliers is there.
    pub(crate) fn missing(&self, seats: usize, appliers: usize) -> Option<Missing>
        ensures missing { result ≡ missing_of self.now seats appliers }
        ensures valid { IsKept D.id self.now }
    {
        if seats as u64 != SEATS + 1 - self.issued.left() {
            return Some(Missing::Seat);
        }
        if appliers as u64 != APPLIERS - self.number.left() {
            return Some(Missing::Applier);
        }
        None
    }

    /// Applies the origin's next entry, and counts it.
    pub(crate) fn apply<B: Allocator>(
        &mut self,
        origin: SiteId,
        entry: &Entry<B>,
        number: &mut Shard<NumberOf<D>>,
        received: &mut Shard<ReceivedBy<D>>,
    ) -> Result<(), OutOfMemory>
        requires site { origin ≤ D.id.sites }
        requires other { origin ≢ D.id.site }
        requires unclosed { (peer self.old.desk.ledger.book origin).log.closed ≡ false }
        requires next { entry.now.prev ≡ (peer self.old.desk.ledger.book origin).log.end }
        requires own { entry.now.origin ≡ origin }
        requires open { has_closed self.old.desk ≡ false }
        ensures ok { OnOk result (DeskApplies self.old.desk origin entry.now self.new.desk) }
        ensures keeps { OnOk result ((h : DeskApplies self.old.desk origin entry.now self.new.desk)
            → ApplyKeeps self.old.desk.ledger origin entry.now h.entry.between self.new.desk.ledger) }
        ensures step { OnOk result (StepsBy D.id self.old.desk (Applies origin entry.now) self.new.desk) }
        ensures records { OnOk result (RecordsBy D.id self.old (Applies origin entry.now) self.new) }
        ensures counters { OnOk result
            (self.new ≡ record self.old {
              desk = self.new.desk;
              number = raised self.old.number (length entry.now.moves);
              received
                  = raised self.old.received (to D.id.site entry.now.moves);
              records = self.old.records ++ IsApplied entry.now ∷ [];
            }) }
        ensures added { OnOk result ((number.new ≡ number.old + length entry.now.moves)
            × (received.new ≡ received.old + to D.id.site entry.now.moves)) }
        ensures err { OnErr result ((self.new ≡ self.old) × (number.new ≡ number.old) × (received.new ≡ received.old)) }
        ensures memory { numbers_in entry.now.moves ≡ None → IsOk result }
    {
        // For the proof: the site's number is in its range.
        let _ = origin.number();
        let before = self.desk.received();
        self.desk.apply(origin, entry)?;
        let gift = self.desk.received() - before;
        self.number.add(number, entry.own() - entry.prev());
        self.received.add(received, gift);
        self.records.note(entry);
        Ok(())
    }
}

// A new seat, with one shard of each counter.
fn new_seat<D: DeskNames>(
    issued: &mut SplitCounter<IssuedBy<D>>,
    spent: &mut SplitCounter<SpentBy<D>>,
) -> Seat<D>
    requires left { 1 ≤ issued.old.left }
    requires both { spent.old.left ≡ issued.old.left }
    ensures told { result ≡ told_nothing }
    ensures issued { one_less issued.old issued.new }
    ensures spent { one_less spent.old spent.new }
{
    let (Some(issued), Some(used)) = (issued.split(), spent.split()) else {
        unreachable!()
    };
    Seat {
        issued,
        used,
        spent: 0,
        served: 0,
    }
}
