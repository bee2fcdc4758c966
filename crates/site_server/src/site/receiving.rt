//! Taking in the lines of the peers.
ghost use Rattle.std.specs.Prelude.{◌≡◌, ◌≢◌, ◌≤◌, false, [], IfOk, OnOk};
ghost use Rattle.site_server.specs.Hearing.{IsBufferAt, IsForDesk, HandlesAtDesk};
ghost use Rattle.apply_lanes.specs.Restarts.{AppliesAgain};
ghost use Rattle.desk_turns.specs.Turns.{TakesTurn};

use crate::site::outboxes::{PeerOutbox, QuerySink};
use crate::site::shared::Shared;
use crate::site::slots::Slots;
use apply_lanes::{
    Applied, Applier, Arrived, DeskNames, Free, Intake, IntakeError, Kept, MAX_LANE, Outlet,
    StepError, lane,
};
use desk_turns::{TurnDesk, Turns, Work};
use inbound::{Inbound, InboundError};
use peer_links::{DeskMessage, Port, Skipped, read_link};
use rights_types::{Beat, Entry, OutOfMemory, Query, SiteId};
use site_core::ReplayError;
use site_node::{Sink, answer_ask, answer_query, note_denial};
use site_records::RecordFault;
use site_sockets::{Connection, PeerReader, PeerState, SiteSockets, SkipCause};
use site_words::Config;
use std::alloc::{Allocator, Global};
use std::marker::{Model, PhantomData};
use std::sync::{Arc, Wait};
use std::time::Clock;
use sub_buffer::State;

/// What takes in the lines of one peer, and what applies its entries.
#[derive(Drop)]
pub(crate) struct PeerLink<D: DeskNames> {
    pub(crate) origin: SiteId,
    pub(crate) receiver: Receiver<D>,
    pub(crate) applier: LaneEnd<D>,
}

/// The reading end of a link.
#[derive(Drop)]
pub(crate) struct Receiver<D: DeskNames> {
    desk: Arc<TurnDesk<D>>,
    intake: Intake,
}

impl<D: DeskNames> Model for Receiver<D> {
    ghost use Rattle.std.specs.Prelude.{◌≡◌, false};
    ghost use Rattle.std.specs.declared.alloc.Global.{Global};
    ghost use Rattle.link_intake.specs.Intakes.{IntakeValue};
    ghost use Rattle.site_server.specs.Hearing.{IsBufferAt};

    ghost Value = { IntakeValue Global };

    ghost view = { λ r. r.intake };

    ghost invariant = { λ r. (r.intake.finished ≡ false) × IsBufferAt D.id r.intake.inbound.buffer };
}

/// The applying end of a link.
#[derive(Drop)]
pub(crate) struct LaneEnd<D: DeskNames> {
    desk: Arc<TurnDesk<D>>,
    origin: SiteId,
    applier: Applier<D, Free>,
    /// Where what it applied is left at the end.
    applied: Arc<Slots<Applied<D>>>,
}

impl<D: DeskNames> PeerLink<D> {
    /// Takes in the line of an entry, which is the next one of the peer, and applies the entry in one turn.
    pub(crate) fn replay<R: Wait, A: Allocator>(
        &mut self,
        rt: &R,
        turns: &mut Turns<D>,
        entry: &Entry<A>,
        line: &[u8],
    ) -> Result<(), RecordFault>
        ensures { OnOk result (TakesTurn D.id (λ old new. AppliesAgain D.id old entry.now new) turns.old turns.new) }
    {
        self.receiver.take_next(rt, line)?;
        match turns.apply_again(rt, &mut self.applier.applier, entry) {
            Ok(()) => Ok(()),
            Err(StepError::OutOfMemory) => Err(RecordFault::OutOfMemory),
            Err(_) => Err(RecordFault::NotPermitted(ReplayError::OutOfOrder)),
        }
    }
}

/// A link for each peer.
pub(crate) fn links_of<D: DeskNames, R: Wait>(
    rt: &R,
    alloc: Global,
    config: &Config,
    shared: &Shared<D>,
) -> Result<Vec<PeerLink<D>>, OutOfMemory>
    requires { (D.id.site ≡ config.now.id) × (D.id.sites ≡ config.now.sites) }
{
    let mut links = Vec::new(alloc);
    for peer in config.peers() {
        if let Some(link) = link_of(rt, alloc, config, shared, peer.site())? {
            links.push(link)?;
        }
    }
    Ok(links)
}

/// The link from this site. `None` if it is not a peer in the configuration.
fn link_of<D: DeskNames, R: Wait>(
    rt: &R,
    alloc: Global,
    config: &Config,
    shared: &Shared<D>,
    origin: SiteId,
) -> Result<Option<PeerLink<D>>, OutOfMemory>
    requires { (D.id.site ≡ config.now.id) × (D.id.sites ≡ config.now.sites) }
{
    if origin == config.id() || origin.number() > config.sites() {
        return Ok(None);
    }
    let (intake, outlet) = intake_of(alloc, config, origin)?;
    Ok(Some(PeerLink {
        origin,
        receiver: Receiver::new(shared.desk.clone()?, intake),
        applier: LaneEnd::new(rt, shared, origin, outlet)?,
    }))
}

/// The intake for a peer, and the outlet of its lane.
fn intake_of(
    alloc: Global,
    config: &Config,
    origin: SiteId,
) -> Result<(Intake, Outlet), OutOfMemory>
    requires member { origin ≤ config.now.sites }
    requires other { origin ≢ config.now.id }
    ensures ends { IfOk result (λ r. (r.0.finished ≡ false) × (r.1.taken ≡ [])) }
    ensures pair { IfOk result (λ r. (r.0.inbound.buffer.me ≡ config.now.id) × (r.0.inbound.buffer.origin ≡ origin)) }
{
    let (inlet, outlet) = lane(alloc, MAX_LANE)?;
    let inbound = Inbound::new(alloc, config.id(), origin, config.sites())?;
    Ok((Intake::new(inbound, inlet), outlet))
}

impl<D: DeskNames> LaneEnd<D> {
    fn new<R: Wait>(
        rt: &R,
        shared: &Shared<D>,
        origin: SiteId,
        outlet: Outlet,
    ) -> Result<LaneEnd<D>, OutOfMemory>
        requires { outlet.taken ≡ [] }
    {
        let Ok(applier) = shared.desk.applier(rt, origin, outlet) else {
            // Each peer is another site, and gets its only applier here, so this is not reached.
            return Err(OutOfMemory);
        };
        Ok(LaneEnd {
            desk: shared.desk.clone()?,
            origin,
            applier,
            applied: shared.applied.clone()?,
        })
    }

    /// Applies the entries until the end of the lane, and leaves what the applier reports for the end of the site. An
    /// error ends the link: its lines are then skipped.
    pub(crate) fn apply_all<R: Wait>(self, rt: &R, site: &SiteSockets) {
        let LaneEnd {
            desk,
            origin,
            mut applier,
            applied,
        } = self;
        let mut turns = Turns::new(desk);
        if let Err(StepError::OutOfMemory) = turns.apply_all(rt, &mut applier) {
            site.fail();
        }
        applied.put(rt, origin.number() as usize - 1, applier.done());
    }
}

impl<D: DeskNames> Receiver<D> {
    fn new(desk: Arc<TurnDesk<D>>, intake: Intake) -> Receiver<D>
        requires open { intake.finished ≡ false }
        requires of_desk { IsBufferAt D.id intake.inbound.buffer }
    {
        Receiver { desk, intake }
    }

    /// Takes a line in that brings the next entry.
    fn take_next<R: Wait>(&mut self, rt: &R, line: &[u8]) -> Result<(), RecordFault> {
        match self.intake.on_line(rt, line) {
            Ok(Arrived::Entries(counts)) if counts.ready == 1 => Ok(()),
            Ok(_) => Err(RecordFault::NotPermitted(ReplayError::OutOfOrder)),
            Err(IntakeError::Inbound(InboundError::OutOfMemory)) => Err(RecordFault::OutOfMemory),
            Err(_) => Err(RecordFault::NotPermitted(ReplayError::NoRecord)),
        }
    }

    /// Reads the connections of this peer, one after another, until the connection slot is closed.
    pub(crate) fn receive_all<R: Wait + Clock>(mut self, rt: &R, peer: &PeerState) {
        for _ in rt.forever() {
            let Some(connection) = peer.connection_slot.take(rt) else {
                break;
            };
            peer.events.receives(rt);
            self.receive(rt, peer, connection);
            peer.connection_slot.finish(rt);
            peer.events.receives_no_more(rt);
        }
        let Receiver { mut intake, .. } = self;
        let _ = intake.finish(rt);
    }

    /// Reads one connection to its end, or until an error, which has the same effect, as has a want of memory.
    fn receive<R: Wait + Clock>(&mut self, rt: &R, peer: &PeerState, connection: Connection) {
        let Connection { stream, mut cutter } = connection;
        let Ok(desk) = self.desk.clone() else {
            return;
        };
        let mut port = SitePort {
            rt,
            turns: Turns::new(desk),
            peer,
            outbox: PeerOutbox::new(rt, peer),
        };
        let mut reader = PeerReader::new(rt, peer, &stream);
        let _ = read_link(rt, &mut reader, &mut cutter, &mut self.intake, &mut port);
    }
}

/// What a reading thread does with messages that are not for its buffer. They go to the desk, under its lock, and the
/// answers go into the peer's outbox.
#[derive(Drop)]
struct SitePort<'a, D: DeskNames, E, S: QuerySink + Drop> {
    rt: &'a E,
    turns: Turns<D>,
    peer: &'a PeerState,
    outbox: S,
}

/// In one turn, a message is handled at the desk, and its answer goes into the outbox.
#[derive(Drop)]
struct Handle<'a, S> {
    peer: &'a PeerState,
    message: DeskMessage,
    outbox: PhantomData<S>,
}

impl<D: DeskNames, S: Sink> Work<D> for Handle<'_, S> {
    ghost use Rattle.site_server.specs.Hearing.{IsForDesk, Handles};

    type With = S;

    type Told = Result<(), OutOfMemory>;

    ghost may = { λ w. IsForDesk D.id w.message };

    ghost does = { λ w before old result after new. Handles S.takes old w.message before result new after };

    fn work(self, kept: &mut Kept<D>, with: &mut S) -> Result<(), OutOfMemory> {
        let Handle { peer, message, .. } = self;
        match message {
            DeskMessage::Query(query) => {
                peer.events.offers(kept.desk().number());
                answer_query(kept, &query, with)
            }
            DeskMessage::Ask(ask) => answer_ask(kept, &ask, with),
            DeskMessage::Deny(denial) => {
                note_denial(kept, &denial);
                Ok(())
            }
        }
    }
}

impl<D: DeskNames, E: Wait, S: QuerySink + Drop> SitePort<'_, D, E, S> {
    fn handle(&mut self, message: DeskMessage) -> Result<(), OutOfMemory>
        requires { IsForDesk D.id message }
        ensures { HandlesAtDesk S.takes D.id message self.old.turns self.old.outbox result self.new.turns
            self.new.outbox }
    {
        let work = Handle {
            peer: self.peer,
            message,
            outbox: PhantomData,
        };
        self.turns.take(self.rt, work, &mut self.outbox)
    }

    /// How far the desk has applied the peer's log.
    fn applied(&self) -> u64 {
        let look = self.turns.look(self.rt);
        look.kept().desk().applied(self.peer.site)
    }

    /// Records a beat with a number below what was applied of the peer's log.
    fn note_beat(&self, number: u64) {
        let applied = self.applied();
        if number < applied {
            self.peer.events.goes_back(self.rt, number, applied);
        }
    }
}

/// Why the line is skipped.
fn skip_cause(why: Skipped) -> SkipCause {
    match why {
        Skipped::Long => SkipCause::TooLong,
        Skipped::Refused(InboundError::WrongOrigin) => SkipCause::WrongOrigin,
        Skipped::Refused(InboundError::BadSite) => SkipCause::BadSite,
        Skipped::Refused(_) => SkipCause::NoMessage,
    }
}

impl<D: DeskNames, E: Wait, S: QuerySink + Drop> Port for SitePort<'_, D, E, S> {
    ghost use Rattle.site_server.specs.Hearing.{IsForDesk, Hears};

    ghost accepts = { λ message. IsForDesk D.id message };

    ghost hears = { λ before heard after. Hears S.takes S.queries D.id before.turns before.outbox heard after.turns
        after.outbox };

    fn message<R: Wait>(&mut self, _rt: &R, message: DeskMessage) -> Result<(), OutOfMemory> {
        self.handle(message)
    }

    fn line<R: Wait>(&mut self, _rt: &R, line: Vec<u8>) {
        self.outbox.send_query(line);
    }

    fn query<R: Wait>(&mut self, rt: &R, query: Query, line: Vec<u8>) {
        self.peer.events.lacks(self.rt, query.first(), query.last());
        self.line(rt, line);
    }

    fn seen<R: Wait>(&mut self, _rt: &R, state: State, held: usize) {
        let missing = state == State::Buffering;
        if !missing {
            self.peer.events.lacks_nothing(self.rt);
        }
        self.peer.note_buffer(missing, held);
    }

    fn skipped<R: Wait>(&self, _rt: &R, why: Skipped) {
        self.peer.events.skips(self.rt, skip_cause(why));
    }

    fn taken<R: Wait>(&self, _rt: &R, beat: Option<Beat>) {
        self.peer.events.takes();
        if let Some(beat) = beat {
            self.note_beat(beat.number());
        }
    }
}
