//! What may be done in a turn at a desk.
ghost use Rattle.std.specs.Prelude.{ℕ};

use apply_lanes::{Applier, DeskNames, Free, Kept, RecordLost, Seat, StepError};
use command_keys::Key;
use rights_types::{Ask, Entry, SiteId};
use site_core::{DeskError, ReplayError};
use site_journal::Batch;
use site_node::{Reply, Ticked, act, act_keyed, serve_due, serve_due_beside};
use site_records::KeyFault;
use site_words::DeskCommand;
use std::alloc::{Allocator, Global};
use transfer_manager::SiteSet;

/// The work of one turn at a desk.
pub trait Work<D: DeskNames> {
    ghost use Rattle.apply_lanes.specs.Kepts.{KeptValue};

    /// What the work reads and changes besides the desk, as a seat or an outbox.
    type With;

    /// What the work returns.
    type Told;

    /// Which work may be done at this desk.
    ghost may: { Self → Type 0 };

    /// `does work before old told after new`: the work leads from `before` and the desk `old` to `after` and the desk
    /// `new`, and returns `told`.
    ghost does: { Self → Self.With → KeptValue → Self.Told → Self.With → KeptValue → Type 0 };

    /// Does the work at the desk, which the caller holds.
    fn work(self, kept: &mut Kept<D>, with: &mut Self::With) -> Self::Told
        requires { may self }
        ensures { does self with.old kept.old result with.new kept.new };
}

/// To carry out a command for a seat.
#[derive(Drop)]
pub struct Act(pub DeskCommand);

impl<D: DeskNames> Work<D> for Act {
    ghost use Rattle.site_node.specs.Acting.{Acts};

    type With = Seat<D>;

    type Told = Reply;

    ghost may = { λ _. Unit {0} };

    ghost does = { λ act was old reply now new. Acts old was act.0 reply new now };

    fn work(self, kept: &mut Kept<D>, with: &mut Seat<D>) -> Reply {
        act(kept, with, self.0)
    }
}

/// To carry out a command under a key for a seat.
#[derive(Drop)]
pub struct ActKeyed(pub Key, pub DeskCommand);

impl<D: DeskNames> Work<D> for ActKeyed {
    ghost use Rattle.site_node.specs.Keyed.{ActsKeyed};

    type With = Seat<D>;

    type Told = Reply;

    ghost may = { λ _. Unit {0} };

    ghost does = { λ act was old reply now new. ActsKeyed old was act.0 act.1 reply new now };

    fn work(self, kept: &mut Kept<D>, with: &mut Seat<D>) -> Reply {
        act_keyed(kept, with, self.0, self.1)
    }
}

/// To do what is due at this time, in milliseconds, for a seat.
#[derive(Drop)]
pub struct Tick(pub u64);

impl<D: DeskNames> Work<D> for Tick {
    ghost use Rattle.std.specs.Prelude.{false};
    ghost use Rattle.desk_turns.specs.Turns.{ServesDue};

    type With = Seat<D>;

    type Told = Result<Ticked, DeskError>;

    ghost may = { λ _. Unit {0} };

    ghost does = { λ tick was old ticked now new. ServesDue (λ _. false) old was tick.0 ticked new now };

    fn work(self, kept: &mut Kept<D>, with: &mut Seat<D>) -> Result<Ticked, DeskError> {
        serve_due(kept, with, self.0)
    }
}

/// To do what is due at this time, in milliseconds, beside silent peers, for a seat.
#[derive(Drop)]
pub struct TickBeside {
    pub time: u64,
    pub silent: SiteSet,
}

impl<D: DeskNames> Work<D> for TickBeside {
    ghost use Rattle.transfer_manager.specs.SiteSets.{has_site};
    ghost use Rattle.desk_turns.specs.Turns.{ServesDue};

    type With = Seat<D>;

    type Told = Result<Ticked, DeskError>;

    ghost may = { λ _. Unit {0} };

    ghost does = { λ tick was old ticked now new. ServesDue (has_site tick.silent) old was tick.time ticked new now };

    fn work(self, kept: &mut Kept<D>, with: &mut Seat<D>) -> Result<Ticked, DeskError> {
        serve_due_beside(kept, with, self.time, &self.silent)
    }
}

/// To apply the entry that an applier has in hand, and those that wait on its lane, at most `MAX_BATCH` in all.
#[derive(Drop)]
pub struct ApplyReady;

impl<D: DeskNames> Work<D> for ApplyReady {
    ghost use Rattle.desk_turns.specs.Applying.{AppliesReady};

    type With = Applier<D, Free>;

    type Told = Result<(u64, bool), StepError>;

    ghost may = { λ _. Unit {0} };

    ghost does = { λ _ was old result now new. AppliesReady D.id was old result now new };

    fn work(
        self,
        kept: &mut Kept<D>,
        with: &mut Applier<D, Free>,
    ) -> Result<(u64, bool), StepError> {
        with.apply_ready(kept)
    }
}

/// To apply an entry of another site again, which its applier has in hand.
#[derive(Drop)]
pub struct ReplayApplied<'a, A: Allocator = Global>(pub &'a Entry<A>);

impl<'a, D: DeskNames, A: Allocator> Work<D> for ReplayApplied<'a, A> {
    ghost use Rattle.desk_turns.specs.Applying.{AppliesHand};

    type With = Applier<D, Free>;

    type Told = Result<(), StepError>;

    ghost may = { λ _. Unit {0} };

    ghost does = { λ work was old told now new. AppliesHand D.id work.0.now was old told now new };

    fn work(self, kept: &mut Kept<D>, with: &mut Applier<D, Free>) -> Result<(), StepError> {
        with.apply_again(kept, self.0)
    }
}

/// To keep a journal from now on, which has all records so far.
#[derive(Drop)]
pub struct KeepJournal {
    pub alloc: Global,
    /// Where further records wait.
    pub batch: Batch,
    /// How many lines the journal has.
    pub made: u64,
}

impl<D: DeskNames> Work<D> for KeepJournal {
    ghost use Rattle.std.specs.Prelude.{◌≡◌, []};
    ghost use Rattle.site_journal.specs.Batch.{records_in};
    ghost use Rattle.desk_turns.specs.Journaling.{KeepsJournal};

    type With = ();

    type Told = ();

    ghost may = { λ work. records_in work.batch ≡ [] };

    ghost does = { λ work _ old _ _ new. KeepsJournal work.made old new };

    fn work(self, kept: &mut Kept<D>, _with: &mut ()) {
        kept.keep_journal(self.alloc, self.batch, self.made);
    }
}

/// The lines that a journal is handed, and how many were made by then.
#[derive(Drop)]
pub struct HandedOver {
    pub batch: Batch,
    pub made: u64,
}

/// To hand over the lines of the records that wait for the journal, for an empty batch. `None` without a journal.
#[derive(Drop)]
pub struct HandOver(pub Batch);

impl<D: DeskNames> Work<D> for HandOver {
    ghost use Rattle.std.specs.Prelude.{◌≡◌, []};
    ghost use Rattle.site_journal.specs.Batch.{records_in};
    ghost use Rattle.desk_turns.specs.Journaling.{HandsOver};

    type With = ();

    type Told = Result<Option<HandedOver>, RecordLost>;

    ghost may = { λ work. records_in work.0 ≡ [] };

    ghost does = { λ _ _ old told _ new. HandsOver old told new };

    fn work(self, kept: &mut Kept<D>, _with: &mut ()) -> Result<Option<HandedOver>, RecordLost> {
        let made = kept.records_made();
        let Some(batch) = kept.hand_over(self.0)? else {
            return Ok(None);
        };
        Ok(Some(HandedOver { batch, made }))
    }
}

/// To write an entry of the site again, of which this is the text, for a seat.
#[derive(Drop)]
pub struct ReplayOwn<'a, A: Allocator = Global>(pub &'a Entry<A>, pub &'a [u8]);

impl<'a, D: DeskNames, A: Allocator> Work<D> for ReplayOwn<'a, A> {
    ghost use Rattle.std.specs.Prelude.{◌≡◌};
    ghost use Rattle.origin_log.specs.Logs.{entry_text};
    ghost use Rattle.desk_turns.specs.Journaling.{ReplaysOwn};

    type With = Seat<D>;

    type Told = Result<(), ReplayError>;

    ghost may = { λ work. work.1.now ≡ entry_text work.0.now };

    ghost does = { λ work was old told now new. ReplaysOwn work.0.now was old told now new };

    fn work(self, kept: &mut Kept<D>, with: &mut Seat<D>) -> Result<(), ReplayError> {
        kept.replay_own(with, self.0, self.1)
    }
}

/// To make an ask of the site again.
#[derive(Drop)]
pub struct ReplayAsk(pub Ask);

impl<D: DeskNames> Work<D> for ReplayAsk {
    ghost use Rattle.desk_turns.specs.Journaling.{ReplaysAsk};

    type With = ();

    type Told = Result<(), ReplayError>;

    ghost may = { λ _. Unit {0} };

    ghost does = { λ work _ old told _ new. ReplaysAsk work.0 old told new };

    fn work(self, kept: &mut Kept<D>, _with: &mut ()) -> Result<(), ReplayError> {
        kept.replay_ask(&self.0)
    }
}

/// To remember the key of a record of the journal again, with the number of its entry.
#[derive(Drop)]
pub struct ReplayKey(pub Key, pub u64);

impl<D: DeskNames> Work<D> for ReplayKey {
    ghost use Rattle.desk_turns.specs.Journaling.{ReplaysKeyRecord};

    type With = ();

    type Told = Result<(), KeyFault>;

    ghost may = { λ _. Unit {0} };

    ghost does = { λ work _ old told _ new. ReplaysKeyRecord work.0 work.1 old told new };

    fn work(self, kept: &mut Kept<D>, _with: &mut ()) -> Result<(), KeyFault> {
        kept.replay_key(self.0, self.1)
    }
}

/// To give out no ticket up to this one.
#[derive(Drop)]
pub struct SkipTickets(pub u64);

impl<D: DeskNames> Work<D> for SkipTickets {
    ghost use Rattle.std.specs.Prelude.{◌≡◌};
    ghost use Rattle.request_queue.specs.Queues.{without_tickets};

    type With = ();

    type Told = ();

    ghost may = { λ _. Unit {0} };

    ghost does = { λ work _ old _ _ new.
        new ≡ record old { desk = record old.desk { queue = without_tickets old.desk.queue work.0 } } };

    fn work(self, kept: &mut Kept<D>, _with: &mut ()) {
        kept.skip_tickets(self.0);
    }
}

/// To count all entries as published to this peer.
#[derive(Drop)]
pub struct SkipUnpublished(pub SiteId);

impl<D: DeskNames> Work<D> for SkipUnpublished {
    ghost use Rattle.std.specs.Prelude.{◌≡◌};
    ghost use Rattle.site_core.specs.Calls.{after_skip};

    type With = ();

    type Told = ();

    ghost may = { λ _. Unit {0} };

    ghost does = { λ work _ old _ _ new. new ≡ record old { desk = after_skip old.desk work.0 } };

    fn work(self, kept: &mut Kept<D>, _with: &mut ()) {
        kept.skip_unpublished(self.0);
    }
}
