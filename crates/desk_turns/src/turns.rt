//! The desk that threads share, and the turns that they take there. `Turns::take` is the one function that lends the
//! desk to change it.
ghost use Rattle.std.specs.Prelude.{◌≡◌, ℕ, [], true, false, is_some, Ok, Err, IfOk, IfSome, OnOk, IfErr};
ghost use Rattle.apply_lanes.specs.Names.{id_of, AreBlank, IsUnused};
ghost use Rattle.apply_lanes.specs.Kepts.{told_nothing};
ghost use Rattle.desk_turns.specs.Noting.{AreNoted, NotesAll};
ghost use Rattle.desk_turns.specs.Turns.{TakesTurn};
ghost use Rattle.desk_turns.specs.Applying.{AppliesBatch, AppliesAll, TakesAgain};

use crate::work::{ApplyReady, ReplayApplied, Work};
use apply_lanes::{
    AdmitError, Applier, Blanks, DeskNames, Free, Kept, Outlet, Seat, SeatsFull, SharedDesk,
    StepError, pause,
};
use command_keys::KeyBook;
use durability::{Counts, Durability};
use histories::History;
use rights_types::{Entry, SiteId};
use site_core::Desk;
use std::alloc::Allocator;
use std::marker::Model;
use std::sync::{Arc, MutexGuard, Wait};

/// While more bytes of records than this wait for the journal, no turn begins that may make others.
const MUCH_WAITING: usize = 1 << 17;

/// A desk that threads share. Turns and appliers change it, and nothing else does.
#[derive(Drop)]
pub struct TurnDesk<D: DeskNames> {
    desk: SharedDesk<D>,
    /// `None` without a journal.
    durability: Option<Arc<Durability>>,
}

/// A desk that is held for reading. No thread changes it as long as this is not dropped.
#[derive(Drop)]
pub struct Look<'a, D: DeskNames> {
    kept: MutexGuard<'a, Kept<D>>,
}

/// The turns that one thread takes at a desk. A clause reads it as the states of the desk before and after each of
/// them, in order.
#[derive(Drop)]
pub struct Turns<D: DeskNames> {
    desk: Arc<TurnDesk<D>>,
    states: History<Kept<D>>,
    /// With a journal, the counts before and after each turn noted how many records were made.
    notes: History<Counts>,
    /// Whether the turns make room for records, and so wait for nobody that does.
    makes_room: bool,
}

impl<D: DeskNames> Model for Turns<D> {
    ghost use Rattle.std.specs.Prelude.{List};
    ghost use Rattle.apply_lanes.specs.Kepts.{KeptValue};

    ghost Value = { List KeptValue };

    ghost view = { λ turns. turns.states.items };

    ghost use Rattle.std.specs.Prelude.{◌≡◌, true, is_some};
    ghost use Rattle.std.specs.Arc.{arc_value};
    ghost use Rattle.desk_turns.specs.Noting.{AreNoted};

    ghost invariant = { λ turns. is_some (arc_value turns.desk).durability ≡ true
        → AreNoted turns.states.items turns.notes.items };
}

impl<D: DeskNames> TurnDesk<D> {
    /// Shares a desk whose log is empty and that applied nothing. Without keys it takes none. With a journal, each turn
    /// notes how many records were made.
    pub fn new(
        desk: Desk,
        blanks: Blanks,
        keys: Option<KeyBook>,
        durability: Option<Arc<Durability>>,
    ) -> TurnDesk<D>
        requires id { D.id ≡ id_of desk blanks }
        requires blanks { AreBlank blanks }
        requires unused { IsUnused desk }
    {
        TurnDesk {
            desk: SharedDesk::with_keys(desk, blanks, keys),
            durability,
        }
    }

    /// A new seat: one of at most `SEATS`, besides the clock's. `SeatsFull` if all of them were given out.
    pub fn seat<R: Wait>(&self, rt: &R) -> Result<Seat<D>, SeatsFull>
        ensures { IfOk result (λ s. s ≡ told_nothing) }
    {
        self.desk.seat(rt)
    }

    /// The seat of the site's clock. It is given out once; then `SeatsFull`.
    pub fn clock_seat<R: Wait>(&self, rt: &R) -> Result<Seat<D>, SeatsFull>
        ensures { IfOk result (λ s. s ≡ told_nothing) }
    {
        self.desk.clock_seat(rt)
    }

    /// The applier of that origin's log, whose entries arrive on this lane. Refused if the origin is no other site of
    /// the system, or has an applier.
    pub fn applier<R: Wait>(
        &self,
        rt: &R,
        origin: SiteId,
        outlet: Outlet,
    ) -> Result<Applier<D, Free>, AdmitError<Free>>
        requires { outlet.taken ≡ [] }
    {
        self.desk.applier(rt, origin, outlet, Free)
    }

    /// Waits until no other thread holds the desk, and holds it for reading.
    pub fn look<'a, R: Wait>(&'a self, rt: &R) -> Look<'a, D> {
        Look {
            kept: self.desk.lock(rt),
        }
    }

    /// Notes how many records the desk has made, if any, before its lock is given up. The list gets the counts before and
    /// after.
    #[inline(always)]
    fn note<R: Wait>(&self, rt: &R, kept: &Kept<D>, notes: &mut History<Counts>)
        ensures { is_some self.now.durability ≡ true → NotesAll kept.now notes.old.items notes.new.items }
    {
        if let Some(durability) = &self.durability {
            let made = kept.records_made();
            if made > 0 {
                durability.note(rt, made, notes);
            }
        }
    }

    /// Waits until no other thread holds the desk, and holds it, for turns that make room for records or for others.
    #[inline(always)]
    fn hold<'a, R: Wait>(&'a self, rt: &R, makes_room: bool) -> MutexGuard<'a, Kept<D>> {
        let kept = self.desk.lock(rt);
        if makes_room || self.durability.is_none() || kept.bytes_waiting() <= MUCH_WAITING {
            return kept;
        }
        drop(kept);
        self.hold_with_room(rt)
    }

    /// The same with a journal, once there is room for more records, or none that appends.
    #[inline(never)]
    fn hold_with_room<'a, R: Wait>(&'a self, rt: &R) -> MutexGuard<'a, Kept<D>> {
        for _ in rt.forever() {
            let has_journal = self.has_journal(rt);
            let kept = self.desk.lock(rt);
            if !has_journal || kept.bytes_waiting() <= MUCH_WAITING {
                return kept;
            }
        }
        unreachable!()
    }

    /// Waits until the journal has the records that were made by now. `false` if there is none that appends.
    fn has_journal<R: Wait>(&self, rt: &R) -> bool {
        match &self.durability {
            Some(durability) => durability.pass(rt, &mut History::new()),
            None => false,
        }
    }

    /// The desk itself, which no thread shares any more.
    pub fn into_desk(self) -> SharedDesk<D> {
        let TurnDesk { desk, .. } = self;
        desk
    }
}

impl<D: DeskNames> Look<'_, D> {
    pub fn kept(&self) -> &Kept<D> {
        &self.kept
    }
}

impl<D: DeskNames> Turns<D> {
    /// At this desk, before the first turn.
    pub fn new(desk: Arc<TurnDesk<D>>) -> Turns<D>
        ensures { result ≡ [] }
    {
        Turns {
            desk,
            states: History::new(),
            notes: History::new(),
            makes_room: false,
        }
    }

    /// The same for the one thread that appends to the journal, on which the others wait.
    pub fn of_journal(desk: Arc<TurnDesk<D>>) -> Turns<D>
        ensures { result ≡ [] }
    {
        Turns {
            desk,
            states: History::new(),
            notes: History::new(),
            makes_room: true,
        }
    }

    /// Takes one turn: waits until no other thread holds the desk, and does this work under that one hold.
    #[tactic(auto, using(crate::proofs::NoteLaws::notes_turn))]
    pub fn take<R: Wait, W: Work<D>>(&mut self, rt: &R, work: W, with: &mut W::With) -> W::Told
        requires { W.may work }
        ensures { TakesTurn D.id (λ old new. W.does work with.old old result with.new new) self.old self.new }
    {
        let mut kept = self.desk.hold(rt, self.makes_room);
        let kept = &mut *kept;
        // For the proof: what holds whenever the lock is free.
        let _ = kept.desk();
        let states = self.states.and(kept);
        let told = work.work(kept, with);
        let _ = kept.desk();
        self.states = states.and(kept);
        self.desk.note(rt, kept, &mut self.notes);
        told
    }

    /// What the turns noted of the journal's records, each before it gave up the desk: the counts before and after. `None`
    /// without a journal.
    pub fn notes(&self) -> Option<&History<Counts>>
        ensures { IfSome result (λ notes. AreNoted self.now notes.now.items) }
    {
        if self.desk.durability.is_some() {
            Some(&self.notes)
        } else {
            None
        }
    }

    /// Waits for an entry of this applier's lane, and then applies or drops all that wait there, in one turn. Returns
    /// how many, and `false` if End was taken. Errors: `LaneClosed`, without a turn; `OutOfStep` and `OutOfMemory`,
    /// which concern the entry then in hand.
    #[tactic(auto, using(crate::proofs::ApplyLaws::takes_batch, crate::proofs::ApplyLaws::takes_none))]
    pub fn apply_batch<R: Wait>(
        &mut self,
        rt: &R,
        applier: &mut Applier<D, Free>,
    ) -> Result<(u64, bool), StepError>
        ensures { AppliesBatch D.id self.old applier.old result self.new applier.new }
    {
        match applier.fill_soon(rt) {
            Ok(true) => self.take(rt, ApplyReady, applier),
            Ok(false) => Ok((0, false)),
            Err(fault) => Err(fault),
        }
    }

    /// Applies or drops the entries of this applier's lane until its end, in turns. Stops at the first error.
    #[tactic(auto, using(crate::proofs::ApplyLaws::none_applied, crate::proofs::ApplyLaws::applies_all))]
    pub fn apply_all<R: Wait>(
        &mut self,
        rt: &R,
        applier: &mut Applier<D, Free>,
    ) -> Result<(), StepError>
        ensures ok { OnOk result ((count : ℕ)
            × AppliesAll D.id self.old applier.old (Ok (count, false)) self.new applier.new) }
        ensures err { IfErr result (λ fault. AppliesAll D.id self.old applier.old (Err fault) self.new applier.new) }
    {
        'batches: for _ in rt.forever() {
            match self.apply_batch(rt, applier) {
                Ok((_, true)) => pause(),
                Ok((_, false)) => return Ok(()),
                Err(fault) => return Err(fault),
            }
        }
        unreachable!()
    }

    /// Waits for an entry of this applier's lane, and then applies it again in one turn, if it is this one, and nothing
    /// else. Errors: `LaneClosed`, without a turn; those of `Applier::apply_again`.
    pub fn apply_again<R: Wait, A: Allocator>(
        &mut self,
        rt: &R,
        applier: &mut Applier<D, Free>,
        entry: &Entry<A>,
    ) -> Result<(), StepError>
        ensures { OnOk result (TakesAgain D.id entry.now self.old applier.old self.new applier.new) }
    {
        match applier.fill_soon(rt) {
            Ok(true) => self.take(rt, ReplayApplied(entry), applier),
            Ok(false) => Err(StepError::LaneClosed),
            Err(fault) => Err(fault),
        }
    }

    /// Waits until no other thread holds the desk, and holds it for reading.
    pub fn look<'a, R: Wait>(&'a self, rt: &R) -> Look<'a, D> {
        self.desk.look(rt)
    }
}
