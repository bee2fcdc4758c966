//! The replies to a client of a site. site_node decides what is done and replied; this module decides under which
//! lock of the desk it is done.
ghost use Rattle.std.specs.Prelude.{◌≡◌, ◌++◌, ◌+◌, ◌≤◌, ◌⊎◌, false, List, ℕ, [], length, is_some, IfOk, OnOk, OnErr};
ghost use Rattle.std.specs.Prelude.{Option, Some, Ok};
ghost use Rattle.std.specs.Io.KnownBytes.{IsAtEnd};
ghost use Rattle.line_streams.specs.Handling.{IsGiven};
ghost use Rattle.line_streams.specs.Talk.{Talk, EndsBy};
ghost use Rattle.line_streams.specs.Waiting.{AddsReply};
ghost use Rattle.line_streams.specs.Words.{words_left};
ghost use Rattle.refusals.specs.Refusals.{refusal_text};
ghost use Rattle.refusals.specs.declared.answered.Answered.TheVariants.{Refused};
ghost use Rattle.site_words.specs.Commands.{command_left, keyed_in};
ghost use Rattle.site_words.specs.declared.commands.SiteCommand.TheVariants.{Bare};
ghost use Rattle.site_words.specs.Status.{status_text};
ghost use Rattle.transfer_manager.specs.SiteSets.{has_site};
ghost use Rattle.desk_turns.specs.Seated.{ActsAtDesk, ActsKeyedAtDesk, TicksAtDesk};
ghost use Rattle.site_server.specs.Replying.{asked, given, CarriesOut, CarriesOutKeyed, AreOfPeers, AreViews};
ghost use Rattle.site_server.specs.Replying.{TellsStatus, TellsQueue, TellsPeers, ThenSends, TicksAndSends, DoesDue};
ghost use Rattle.site_server.specs.Replying.{Says, GetsBy, GetsLine};
ghost use Rattle.site_server.specs.Replying.{IsReportOf, goes_by};
ghost use Rattle.site_server.specs.Connections.{Tells};
ghost use Rattle.site_server.specs.Conversations.{CountsReplies};
ghost use Rattle.site_server.specs.Journals.{IsJournalView};

use crate::site::keeping::progress_of;
use crate::site::outboxes::Outboxes;
use crate::site::tick_signal::{SiteTickSignal, TickSignal};
use apply_lanes::{DeskNames, DeskView};
use command_keys::Key;
use desk_turns::{Seated, Seats};
use line_streams::{ConversationError, EndedBy, Goes, LineHandler, Replies, answer_lines};
use refusals::{Answered, Refusal};
use reply_texts::{REPLY_ROOM, put_refusal};
use rights_types::OutOfMemory;
use site_core::{Desk, DeskError};
use site_node::{
    Peers, Reply, TICK_ROOM, Ticked, answer_peers, answer_queue, answer_reply, answer_tick,
    send_to_all,
};
use site_sockets::{PeerState, SiteSockets};
use site_words::{
    BareCommand, DeskCommand, JournalView, PeerView, SiteCommand, SiteLine, read_command,
    read_keyed, read_line, status_text,
};
use std::alloc::{Allocator, Global};
use std::io::{Read, Write};
use std::marker::Model;
use std::net::TcpStream;
use std::sync::Wait;
use std::time::Clock;
use transfer_manager::SiteSet;

/// A client of a site: a seat at its desk, its peers, and what notifies it of ticks.
#[derive(Drop)]
pub(crate) struct SiteClient<'a, D: DeskNames, R: Wait, P: Peers + Drop, B: TickSignal + Drop> {
    pub(crate) rt: &'a R,
    pub(crate) alloc: Global,
    pub(crate) site: &'a SiteSockets,
    /// The index of its seat, under which its replies are counted.
    pub(crate) index: usize,
    pub(crate) seat: Seated<'a, D>,
    pub(crate) peers: P,
    pub(crate) signal: B,
}

impl<'a, D: DeskNames, R: Wait, P: Peers + Drop, B: TickSignal + Drop> Model
    for SiteClient<'a, D, R, P, B> {
    ghost use Rattle.site_server.specs.Connections.{ClientValue};

    ghost Value = { ClientValue P B };

    ghost view = { λ c. record {
      seat = c.seat;
      peers = c.peers;
      signal = c.signal;
    } };
}

/// A client of a running site.
pub(crate) type ClientOf<'a, D, R> = SiteClient<
    'a,
    D,
    R,
    Outboxes<'a, D, R>,
    SiteTickSignal<'a, R>,
>;

/// A client with the seat at this index, which is free again once the client is dropped. `None` if that seat is taken,
/// or memory was refused; then no seat is taken.
pub(crate) fn client_at<'a, D: DeskNames, R: Wait + Clock + AllocGlobal>(
    rt: &'a R,
    site: &'a SiteSockets,
    seats: &'a Seats<D>,
    index: usize,
) -> Option<ClientOf<'a, D, R>> {
    client_by(rt, site, seats, index, SiteTickSignal::new(rt, site, None))
}

/// The same for a client over a connection, which may leave.
pub(crate) fn client_over<'a, D: DeskNames, R: Wait + Clock + AllocGlobal>(
    rt: &'a R,
    site: &'a SiteSockets,
    seats: &'a Seats<D>,
    index: usize,
    stream: &'a TcpStream,
) -> Option<ClientOf<'a, D, R>> {
    client_by(
        rt,
        site,
        seats,
        index,
        SiteTickSignal::new(rt, site, Some(stream)),
    )
}

fn client_by<'a, D: DeskNames, R: Wait + Clock + AllocGlobal>(
    rt: &'a R,
    site: &'a SiteSockets,
    seats: &'a Seats<D>,
    index: usize,
    signal: SiteTickSignal<'a, R>,
) -> Option<ClientOf<'a, D, R>> {
    let peers = Outboxes::new(rt, seats.turns()?, site.peers())?;
    let seat = seats.sit(index)?;
    Some(SiteClient::new(rt, rt.alloc(), site, index, seat, peers, signal))
}

/// The command that a line spells, which is passed without its line feed, at a site whose own clock shows this time;
/// `None` is passed for a line that is too long.
fn command_in(text: Option<&[u8]>, time: Option<u64>) -> Option<SiteCommand>
    ensures { (line : List ℕ) → IsGiven line text.entry → result ≡ asked time line }
{
    read_command(text?, time)
}

/// The same, read up to its key.
#[inline(always)]
pub(crate) fn line_in(text: Option<&[u8]>, time: Option<u64>) -> Option<SiteLine<'_>>
    ensures { command_left time result ≡ given time text.entry }
{
    read_line(text?, time)
}

/// Adds the reply that a line is refused, and why.
pub(crate) fn refuse<A: Allocator>(
    replies: &mut Replies<A>,
    why: Refusal,
) -> Result<Answered, OutOfMemory>
    requires { replies.old.part ≡ [] }
    ensures how { IfOk result (λ how. how ≡ Refused why) }
    ensures ok { OnOk result (AddsReply replies.old replies.new (refusal_text why)) }
    ensures err { OnErr result (replies.new.whole ≡ replies.old.whole) }
{
    put_refusal(replies, why)?;
    replies.finish()?;
    Ok(Answered::Refused(why))
}

/// Adds the status object of these views, and of so many keys that are remembered.
pub(crate) fn add_status<A: Allocator>(
    alloc: Global,
    desk: &DeskView,
    peers: &[PeerView],
    journal: Option<JournalView>,
    keys: u64,
    replies: &mut Replies<A>,
) -> Result<(), OutOfMemory>
    requires { replies.old.part ≡ [] }
    ensures ok { OnOk result (AddsReply replies.old replies.new (status_text desk.now peers.now journal keys)) }
    ensures err { OnErr result (replies.new.whole ≡ replies.old.whole) }
{
    let text = status_text(alloc, desk, peers, journal, keys)?;
    replies.put(text.as_bytes())?;
    replies.finish()
}

/// How far the journal of the site is. `None` without a journal.
fn journal_view<R: Wait>(rt: &R, site: &SiteSockets) -> Option<JournalView>
    ensures there { is_some result ≡ is_some site.now.durability }
    ensures values { IsJournalView result }
{
    let progress = progress_of(rt, site)?;
    Some(JournalView {
        bytes: progress.bytes,
        records: progress.records,
        durable: progress.durable,
        synced: progress.synced,
    })
}

/// For each of these peers, in order, how far the desk has applied its log, and what its reading thread recorded last.
fn peer_views(alloc: Global, desk: &Desk, peers: &[PeerState]) -> Result<Vec<PeerView>, OutOfMemory>
    ensures { IfOk result (λ views. AreOfPeers desk.now peers.now views.items) }
{
    let mut views = Vec::with_capacity(alloc, peers.len())?;
    for peer in peers {
        let (buffering, held) = peer.buffer();
        views.push(PeerView {
            site: peer.site,
            applied: desk.applied(peer.site),
            buffering,
            held,
        })?;
    }
    Ok(views)
}

impl<'a, D: DeskNames, R: Wait, P: Peers + Drop, B: TickSignal + Drop> SiteClient<'a, D, R, P, B> {
    /// A client with this seat.
    pub(crate) fn new(
        rt: &'a R,
        alloc: Global,
        site: &'a SiteSockets,
        index: usize,
        seat: Seated<'a, D>,
        peers: P,
        signal: B,
    ) -> SiteClient<'a, D, R, P, B>
        ensures { result ≡ record { seat = seat.entry; peers = peers; signal = signal } }
    {
        SiteClient {
            rt,
            alloc,
            site,
            index,
            seat,
            peers,
            signal,
        }
    }

    /// Answers each line of the input until `quit` or its end. However it ends, what the replies reported to the
    /// client as issued and as spent is what the seat counts.
    pub(crate) fn answer_all<I: Read, W: Write>(
        &mut self,
        reader: &mut I,
        writer: &mut W,
    ) -> Result<EndedBy, ConversationError>
        ensures ends { (talk : Talk
            (λ before line text after. GetsLine P.size P.sends P.stops (B.shows before.signal) D.id line before.seat
            before.peers text after.seat after.peers)
            self.old (I.remaining reader.old) (I.remaining reader.new) (W.contents writer.old) (W.contents writer.new))
            × EndsBy result talk × CountsReplies self.old.seat.told talk.lines talk.replies
            self.new.seat.told }
        ensures all { result ≡ Ok EndedBy.Input → IsAtEnd (I.remaining reader.new) }
    {
        answer_lines(self.alloc, self, reader, writer)
    }

    /// Carries out a command, and adds its reply.
    #[inline(always)]
    fn carry_out<A: Allocator>(
        &mut self,
        command: DeskCommand,
        replies: &mut Replies<A>,
    ) -> Result<Answered, OutOfMemory>
        requires { replies.old.part ≡ [] }
        ensures ok { IfOk result (λ how. (text : List ℕ)
            × CarriesOut D.id self.old.seat command (record { text = text; how = how }) self.new.seat
            × AddsReply replies.old replies.new text) }
        ensures short { OnOk result (length replies.new.whole ≤ length replies.old.whole + REPLY_ROOM) }
        ensures err { OnErr result ((self.new ≡ self.old) × (replies.new.whole ≡ replies.old.whole)) }
        ensures rest { self.new ≡ record self.old { seat = self.new.seat } }
    {
        // Reserved first, so that a command is carried out only if its reply has room.
        replies.reserve(REPLY_ROOM)?;
        let reply = self.act(command);
        Ok(answer_reply(replies, reply))
    }

    /// Carries out a command under a key, or replies to its repeat, and adds the reply.
    #[inline(never)]
    fn carry_out_keyed<A: Allocator>(
        &mut self,
        key: Key,
        command: DeskCommand,
        replies: &mut Replies<A>,
    ) -> Result<Answered, OutOfMemory>
        requires { replies.old.part ≡ [] }
        ensures ok { IfOk result (λ how. (text : List ℕ)
            × CarriesOutKeyed D.id self.old.seat key command (record { text = text; how = how }) self.new.seat
            × AddsReply replies.old replies.new text) }
        ensures short { OnOk result (length replies.new.whole ≤ length replies.old.whole + REPLY_ROOM) }
        ensures err { OnErr result ((self.new ≡ self.old) × (replies.new.whole ≡ replies.old.whole)) }
        ensures rest { self.new ≡ record self.old { seat = self.new.seat } }
    {
        // Reserved first, so that a command is carried out only if its reply has room.
        replies.reserve(REPLY_ROOM)?;
        let answer = self.act_keyed(key, command);
        Ok(answer_reply(replies, answer))
    }

    /// Carries out a command under a key at the desk, or replies to its repeat, in one turn.
    pub(crate) fn act_keyed(&mut self, key: Key, command: DeskCommand) -> Reply
        ensures acts { ActsKeyedAtDesk D.id self.old.seat key command result self.new.seat }
        ensures rest { self.new ≡ record self.old { seat = self.new.seat } }
    {
        self.seat.act_keyed(self.rt, key, command)
    }

    /// Carries out a command at the desk, in one turn.
    pub(crate) fn act(&mut self, command: DeskCommand) -> Reply
        ensures acts { ActsAtDesk D.id self.old.seat command result self.new.seat }
        ensures rest { self.new ≡ record self.old { seat = self.new.seat } }
    {
        self.seat.act(self.rt, command)
    }

    /// Does everything due at this time, and adds the reply.
    fn tick<A: Allocator>(
        &mut self,
        time: u64,
        replies: &mut Replies<A>,
    ) -> Result<Answered, OutOfMemory>
        requires { replies.old.part ≡ [] }
        ensures ok { IfOk result (λ how. (text : List ℕ)
            × DoesDue P.size P.sends P.stops D.id self.old.seat self.old.peers time (record { text = text; how = how })
            self.new.seat self.new.peers
            × AddsReply replies.old replies.new text) }
        ensures short { OnOk result (length replies.new.whole ≤ length replies.old.whole + TICK_ROOM) }
        ensures err { OnErr result ((self.new ≡ self.old) × (replies.new.whole ≡ replies.old.whole)) }
    {
        // Reserved first, so that a tick is done only if its reply has room.
        replies.reserve(TICK_ROOM)?;
        let outcome = self.tick_and_send(time);
        Ok(answer_tick(replies, outcome))
    }

    /// Does everything due at this time, which is the site's own, beside these silent peers.
    pub(crate) fn tick_alone(
        &mut self,
        time: u64,
        silent: SiteSet,
    ) -> Result<(Ticked, u64), DeskError>
        ensures { TicksAndSends P.size P.sends P.stops (has_site silent) D.id self.old.seat self.old.peers time result
            self.new.seat self.new.peers }
    {
        let at_desk = self.tick_beside(time, silent);
        self.send_after(at_desk)
    }

    /// Does what is due at the desk under its lock, and then sends each peer what is due to it. In between, entries
    /// of peers may be applied.
    fn tick_and_send(&mut self, time: u64) -> Result<(Ticked, u64), DeskError>
        ensures { TicksAndSends P.size P.sends P.stops (λ _. false) D.id self.old.seat self.old.peers time result
            self.new.seat self.new.peers }
    {
        let ticked = self.tick_at_desk(time);
        self.send_after(ticked)
    }

    fn tick_at_desk(&mut self, time: u64) -> Result<Ticked, DeskError>
        ensures ticks { TicksAtDesk (λ _. false) D.id self.old.seat time result self.new.seat }
        ensures rest { self.new ≡ record self.old { seat = self.new.seat } }
    {
        self.seat.tick(self.rt, time)
    }

    fn tick_beside(&mut self, time: u64, silent: SiteSet) -> Result<Ticked, DeskError>
        ensures ticks { TicksAtDesk (has_site silent) D.id self.old.seat time result self.new.seat }
        ensures rest { self.new ≡ record self.old { seat = self.new.seat } }
    {
        self.seat.tick_beside(self.rt, time, silent)
    }

    /// Notifies of a tick, and then, if it was not refused, sends each peer what is due to it.
    fn send_after(&mut self, ticked: Result<Ticked, DeskError>) -> Result<(Ticked, u64), DeskError>
        ensures sends { ThenSends P.size P.sends P.stops ticked self.old.peers result self.new.peers }
        ensures seat { self.new.seat ≡ self.old.seat }
    {
        self.signal.notify();
        let ticked = ticked?;
        let sent = send_to_all(&mut self.peers)?;
        Ok((ticked, sent))
    }

    /// Adds the status object.
    pub(crate) fn tell_status<A: Allocator>(
        &self,
        replies: &mut Replies<A>,
    ) -> Result<(), OutOfMemory>
        requires { replies.old.part ≡ [] }
        ensures ok { OnOk result ((text : List ℕ) × TellsStatus D.id text × AddsReply replies.old replies.new text) }
        ensures err { OnErr result (replies.new.whole ≡ replies.old.whole) }
    {
        let (desk, peers, keys) = self.views()?;
        let journal = journal_view(self.rt, self.site);
        add_status(self.alloc, &desk, peers.as_slice(), journal, keys, replies)
    }

    /// Adds the report of the spends that wait.
    pub(crate) fn tell_queue<A: Allocator>(
        &self,
        replies: &mut Replies<A>,
    ) -> Result<(), OutOfMemory>
        requires { replies.old.part ≡ [] }
        ensures ok { OnOk result ((text : List ℕ) × TellsQueue D.id text × AddsReply replies.old replies.new text) }
        ensures err { OnErr result (replies.new.whole ≡ replies.old.whole) }
    {
        let look = self.seat.look(self.rt);
        let desk = look.kept().desk();
        answer_queue(replies, desk.requests(), desk.outcomes_unread() as u64)
    }

    /// Adds the report of what is known of each other site.
    pub(crate) fn tell_peers<A: Allocator>(
        &self,
        replies: &mut Replies<A>,
    ) -> Result<(), OutOfMemory>
        requires { replies.old.part ≡ [] }
        ensures ok { OnOk result ((text : List ℕ) × TellsPeers D.id text × AddsReply replies.old replies.new text) }
        ensures err { OnErr result (replies.new.whole ≡ replies.old.whole) }
    {
        let look = self.seat.look(self.rt);
        answer_peers(replies, look.kept().desk())
    }

    /// The command that a line spells now, which is passed without its line feed; `None` is passed for a line that is
    /// too long.
    pub(crate) fn command_in(&self, text: Option<&[u8]>) -> Option<SiteCommand>
        ensures { (line : List ℕ) → IsGiven line text.entry
            → (time : Option ℕ) × B.shows self.now.signal time × (result ≡ asked time line) }
    {
        command_in(text, self.signal.time())
    }

    /// The views of the desk and of its peers, and how many keys are remembered.
    pub(crate) fn views(&self) -> Result<(DeskView, Vec<PeerView>, u64), OutOfMemory>
        ensures { IfOk result (λ views. AreViews D.id views.0 views.1.items views.2) }
    {
        let look = self.seat.look(self.rt);
        let kept = look.kept();
        let peers = peer_views(self.alloc, kept.desk(), self.site.peers())?;
        Ok((kept.view(), peers, kept.keys_remembered() as u64))
    }

    /// Counts an answer.
    pub(crate) fn count(&self, answered: Answered) {
        self.site.commands.note_answer(self.index, answered);
    }

    /// Counts the answer to a line, if it has one, and returns whether the conversation continues after it.
    fn counted(&self, answered: Option<Answered>) -> Goes
        ensures { result ≡ goes_by answered }
    {
        match answered {
            Some(answered) => {
                self.count(answered);
                Goes::On
            }
            None => Goes::Ends,
        }
    }

    /// Adds the status object as the answer to a line.
    fn answer_status<A: Allocator>(&self, replies: &mut Replies<A>) -> Result<Answered, OutOfMemory>
        requires { replies.old.part ≡ [] }
        ensures ok { IfOk result (λ how. (text : List ℕ)
            × IsReportOf (TellsStatus D.id) (record { text = text; how = how }) × AddsReply replies.old replies.new text) }
        ensures err { OnErr result (replies.new.whole ≡ replies.old.whole) }
    {
        self.tell_status(replies)?;
        Ok(Answered::Done)
    }

    /// Adds the report of the spends that wait as the answer to a line.
    fn answer_queue<A: Allocator>(&self, replies: &mut Replies<A>) -> Result<Answered, OutOfMemory>
        requires { replies.old.part ≡ [] }
        ensures ok { IfOk result (λ how. (text : List ℕ)
            × IsReportOf (TellsQueue D.id) (record { text = text; how = how }) × AddsReply replies.old replies.new text) }
        ensures err { OnErr result (replies.new.whole ≡ replies.old.whole) }
    {
        self.tell_queue(replies)?;
        Ok(Answered::Done)
    }

    /// Answers a line, by its command with no key. `quit` is not a command.
    #[inline(always)]
    pub(crate) fn answer_bare<A: Allocator>(
        &mut self,
        command: BareCommand,
        replies: &mut Replies<A>,
    ) -> Result<Answered, OutOfMemory>
        requires { replies.old.part ≡ [] }
        ensures ok { IfOk result (λ how. (text : List ℕ)
            × Tells P.size P.sends P.stops D.id (Some (Bare command)) self.old.seat self.old.peers
            (record { text = text; how = how }) self.new.seat self.new.peers × AddsReply replies.old replies.new text) }
        ensures short { OnOk result ((length replies.new.whole ≤ length replies.old.whole + TICK_ROOM)
            ⊎ (self.new ≡ self.old)) }
        ensures err { OnErr result ((self.new ≡ self.old) × (replies.new.whole ≡ replies.old.whole)) }
    {
        match command {
            BareCommand::AtDesk(command) => self.carry_out(command, replies),
            BareCommand::Tick(time) => self.tick(time, replies),
            BareCommand::RefusedTick => refuse(replies, Refusal::OwnClock),
            BareCommand::Status => self.answer_status(replies),
            BareCommand::Queue => self.answer_queue(replies),
            BareCommand::Quit => refuse(replies, Refusal::BadCommand),
        }
    }

    /// The same for any command; `None` is not a command either.
    pub(crate) fn answer_command<A: Allocator>(
        &mut self,
        command: Option<SiteCommand>,
        replies: &mut Replies<A>,
    ) -> Result<Answered, OutOfMemory>
        requires { replies.old.part ≡ [] }
        ensures ok { IfOk result (λ how. (text : List ℕ)
            × Tells P.size P.sends P.stops D.id command self.old.seat self.old.peers
            (record { text = text; how = how }) self.new.seat self.new.peers × AddsReply replies.old replies.new text) }
        ensures short { OnOk result ((length replies.new.whole ≤ length replies.old.whole + TICK_ROOM)
            ⊎ (self.new ≡ self.old)) }
        ensures err { OnErr result ((self.new ≡ self.old) × (replies.new.whole ≡ replies.old.whole)) }
    {
        match command {
            None => refuse(replies, Refusal::BadCommand),
            Some(command) => self.answer_known(command, replies),
        }
    }

    /// The same for a command.
    fn answer_known<A: Allocator>(
        &mut self,
        command: SiteCommand,
        replies: &mut Replies<A>,
    ) -> Result<Answered, OutOfMemory>
        requires { replies.old.part ≡ [] }
        ensures ok { IfOk result (λ how. (text : List ℕ)
            × Tells P.size P.sends P.stops D.id (Some command) self.old.seat self.old.peers
            (record { text = text; how = how }) self.new.seat self.new.peers × AddsReply replies.old replies.new text) }
        ensures short { OnOk result ((length replies.new.whole ≤ length replies.old.whole + TICK_ROOM)
            ⊎ (self.new ≡ self.old)) }
        ensures err { OnErr result ((self.new ≡ self.old) × (replies.new.whole ≡ replies.old.whole)) }
    {
        match command {
            SiteCommand::Bare(command) => self.answer_bare(command, replies),
            SiteCommand::Keyed(key, command) => self.carry_out_keyed(key, command, replies),
            SiteCommand::BadKey => refuse(replies, Refusal::BadKey),
        }
    }

    /// Answers a line with a key, by the words after `key`.
    #[inline(never)]
    fn answer_keyed<A: Allocator>(
        &mut self,
        words: Option<&[u8]>,
        time: Option<u64>,
        replies: &mut Replies<A>,
    ) -> Result<Answered, OutOfMemory>
        requires { replies.old.part ≡ [] }
        ensures ok { IfOk result (λ how. (text : List ℕ)
            × Says P.size P.sends P.stops D.id (keyed_in time (words_left words.entry)) self.old.seat self.old.peers
            (record { text = text; how = how }) self.new.seat self.new.peers × AddsReply replies.old replies.new text) }
        ensures err { OnErr result ((self.new ≡ self.old) × (replies.new.whole ≡ replies.old.whole)) }
    {
        self.answer_command(read_keyed(words, time), replies)
    }

    /// Answers a line at this time, by its text; `None` is passed for a line that is too long. `quit` gets no answer.
    #[inline(always)]
    fn answer_or_end<A: Allocator>(
        &mut self,
        text: Option<&[u8]>,
        time: Option<u64>,
        replies: &mut Replies<A>,
    ) -> Result<Option<Answered>, OutOfMemory>
        requires { replies.old.part ≡ [] }
        ensures ok { IfOk result (λ how. GetsBy P.size P.sends P.stops how D.id (given time text.entry)
            self.old.seat self.old.peers replies.old self.new.seat self.new.peers replies.new) }
        ensures err { OnErr result ((self.new ≡ self.old) × (replies.new.whole ≡ replies.old.whole)) }
    {
        // A command with no key is read and handed on without room for one, which takes less time.
        match line_in(text, time) {
            Some(SiteLine::Command(BareCommand::Quit)) => Ok(None),
            Some(SiteLine::Command(command)) => {
                let answered = self.answer_bare(command, replies)?;
                Ok(Some(answered))
            }
            Some(SiteLine::AfterKey(words)) => {
                let answered = self.answer_keyed(words, time, replies)?;
                Ok(Some(answered))
            }
            None => {
                let answered = refuse(replies, Refusal::BadCommand)?;
                Ok(Some(answered))
            }
        }
    }
}

impl<D: DeskNames, R: Wait, P: Peers + Drop, B: TickSignal + Drop> LineHandler
    for SiteClient<'_, D, R, P, B> {
    ghost use Rattle.site_server.specs.Replying.{GetsLine};

    ghost answers = { λ before line text after. GetsLine P.size P.sends P.stops (B.shows before.signal) D.id line
        before.seat before.peers text after.seat after.peers };

    // No command was carried out whose reply had no room.
    ghost fails = { λ before after. (after.seat ≡ before.seat) × (after.peers ≡ before.peers) };

    /// `false` once an applier ran out of memory for an entry.
    fn can_go_on(&self) -> bool {
        !self.site.has_failed()
    }

    fn answer<A: Allocator>(
        &mut self,
        text: Option<&[u8]>,
        replies: &mut Replies<A>,
    ) -> Result<Goes, OutOfMemory> {
        let time = self.signal.time();
        let answered = self.answer_or_end(text, time, replies)?;
        Ok(self.counted(answered))
    }
}
