//! A client of a site over a connection.
ghost use Rattle.std.specs.Prelude.{◌≡◌, ◌+◌, ◌≤◌, ◌⊎◌, [], List, ℕ, length, Some, IfOk, OnOk, OnErr};
ghost use Rattle.line_streams.specs.Handling.{IsGiven};
ghost use Rattle.line_streams.specs.Waiting.{AddsReply};
ghost use Rattle.line_streams.specs.Words.{words_left};
ghost use Rattle.site_words.specs.Commands.{keyed_in};
ghost use Rattle.site_words.specs.declared.commands.SiteCommand.TheVariants.{Bare};
ghost use Rattle.site_server.specs.Connections.{Answers, Tells, TellsSettled, TellsBy};
ghost use Rattle.site_server.specs.Replying.{given, under};

use crate::site::client::{SiteClient, line_in};
use crate::site::tick_signal::TickSignal;
use apply_lanes::DeskNames;
use command_keys::Key;
use line_streams::Replies;
use refusals::Answered;
use rights_types::OutOfMemory;
use site_http::Backend;
use site_node::{Peers, TICK_ROOM};
use site_words::{BareCommand, SiteCommand, SiteLine, read_keyed, with_key};
use std::alloc::Global;
use std::sync::Wait;

impl<D: DeskNames, R: Wait, P: Peers + Drop, B: TickSignal + Drop> SiteClient<'_, D, R, P, B> {
    /// Answers a line, by its command. No command ends the site: `quit` is not a command here. Once no client can
    /// receive replies, the rest of a request is not carried out, as if there were no memory.
    fn tell(
        &mut self,
        command: Option<SiteCommand>,
        replies: &mut Replies<Global>,
    ) -> Result<Answered, OutOfMemory>
        requires { replies.old.part ≡ [] }
        ensures ok { IfOk result (λ how. (text : List ℕ)
            × Tells P.size P.sends P.stops D.id command self.old.seat self.old.peers
            (record { text = text; how = how }) self.new.seat self.new.peers
            × AddsReply replies.old replies.new text) }
        ensures short { OnOk result ((length replies.new.whole ≤ length replies.old.whole + TICK_ROOM)
            ⊎ (self.new ≡ self.old)) }
        ensures err { OnErr result (self.new ≡ self.old) }
    {
        if self.site.is_over() {
            return Err(OutOfMemory);
        }
        self.answer_command(command, replies)
    }

    /// The same for a line of a request with no key, read at this time; `None` is passed for a line that is too long. A
    /// command with no key is read and handed on without room for one, which takes less time.
    #[inline(always)]
    fn tell_line(
        &mut self,
        text: Option<&[u8]>,
        time: Option<u64>,
        replies: &mut Replies<Global>,
    ) -> Result<Answered, OutOfMemory>
        requires { replies.old.part ≡ [] }
        ensures ok { IfOk result (λ how. (reply : List ℕ)
            × Tells P.size P.sends P.stops D.id (given time text.entry) self.old.seat self.old.peers
            (record { text = reply; how = how }) self.new.seat self.new.peers
            × AddsReply replies.old replies.new reply) }
        ensures short { OnOk result ((length replies.new.whole ≤ length replies.old.whole + TICK_ROOM)
            ⊎ (self.new ≡ self.old)) }
        ensures err { OnErr result (self.new ≡ self.old) }
    {
        match line_in(text, time) {
            Some(SiteLine::Command(command)) => self.tell_bare(command, replies),
            Some(SiteLine::AfterKey(words)) => self.tell_keyed(words, time, replies),
            None => self.tell(None, replies),
        }
    }

    /// The same for a command with no key.
    #[inline(always)]
    fn tell_bare(
        &mut self,
        command: BareCommand,
        replies: &mut Replies<Global>,
    ) -> Result<Answered, OutOfMemory>
        requires { replies.old.part ≡ [] }
        ensures ok { IfOk result (λ how. (text : List ℕ)
            × Tells P.size P.sends P.stops D.id (Some (Bare command)) self.old.seat self.old.peers
            (record { text = text; how = how }) self.new.seat self.new.peers
            × AddsReply replies.old replies.new text) }
        ensures short { OnOk result ((length replies.new.whole ≤ length replies.old.whole + TICK_ROOM)
            ⊎ (self.new ≡ self.old)) }
        ensures err { OnErr result (self.new ≡ self.old) }
    {
        if self.site.is_over() {
            return Err(OutOfMemory);
        }
        self.answer_bare(command, replies)
    }

    /// The same for a line that names its key, by the words after `key`.
    #[inline(never)]
    fn tell_keyed(
        &mut self,
        words: Option<&[u8]>,
        time: Option<u64>,
        replies: &mut Replies<Global>,
    ) -> Result<Answered, OutOfMemory>
        requires { replies.old.part ≡ [] }
        ensures ok { IfOk result (λ how. (text : List ℕ)
            × Tells P.size P.sends P.stops D.id (keyed_in time (words_left words.entry)) self.old.seat self.old.peers
            (record { text = text; how = how }) self.new.seat self.new.peers
            × AddsReply replies.old replies.new text) }
        ensures short { OnOk result ((length replies.new.whole ≤ length replies.old.whole + TICK_ROOM)
            ⊎ (self.new ≡ self.old)) }
        ensures err { OnErr result (self.new ≡ self.old) }
    {
        self.tell(read_keyed(words, time), replies)
    }

    /// The same for a client that waits for the outcome of a spend.
    fn tell_settled(
        &mut self,
        command: Option<SiteCommand>,
        replies: &mut Replies<Global>,
    ) -> Result<Answered, OutOfMemory>
        requires { replies.old.part ≡ [] }
        ensures ok { IfOk result (λ how. (text : List ℕ)
            × TellsSettled P.size P.sends P.stops (B.has_ended self.old.signal) (B.has_left self.old.signal) D.id command self.old.seat self.old.peers
            (record { text = text; how = how }) self.new.seat self.new.peers × AddsReply replies.old replies.new text) }
        ensures short { OnOk result ((length replies.new.whole ≤ length replies.old.whole + TICK_ROOM)
            ⊎ (self.new ≡ self.old)) }
        ensures err { OnErr result (self.new ≡ self.old) }
    {
        match command {
            Some(command) => self.settle_known(command, replies),
            None => self.tell(None, replies),
        }
    }

    /// The same for a command.
    fn settle_known(
        &mut self,
        command: SiteCommand,
        replies: &mut Replies<Global>,
    ) -> Result<Answered, OutOfMemory>
        requires { replies.old.part ≡ [] }
        ensures ok { IfOk result (λ how. (text : List ℕ)
            × TellsSettled P.size P.sends P.stops (B.has_ended self.old.signal) (B.has_left self.old.signal) D.id (Some command) self.old.seat self.old.peers
            (record { text = text; how = how }) self.new.seat self.new.peers × AddsReply replies.old replies.new text) }
        ensures short { OnOk result ((length replies.new.whole ≤ length replies.old.whole + TICK_ROOM)
            ⊎ (self.new ≡ self.old)) }
        ensures err { OnErr result (self.new ≡ self.old) }
    {
        match command {
            SiteCommand::Bare(command) => self.settle_bare(command, replies),
            SiteCommand::Keyed(key, command) => self.settle_keyed(key, command, replies),
            SiteCommand::BadKey => self.tell(Some(SiteCommand::BadKey), replies),
        }
    }

    /// The same for a command with no key.
    fn settle_bare(
        &mut self,
        command: BareCommand,
        replies: &mut Replies<Global>,
    ) -> Result<Answered, OutOfMemory>
        requires { replies.old.part ≡ [] }
        ensures ok { IfOk result (λ how. (text : List ℕ)
            × TellsSettled P.size P.sends P.stops (B.has_ended self.old.signal) (B.has_left self.old.signal) D.id
            (Some (Bare command)) self.old.seat self.old.peers
            (record { text = text; how = how }) self.new.seat self.new.peers × AddsReply replies.old replies.new text) }
        ensures short { OnOk result ((length replies.new.whole ≤ length replies.old.whole + TICK_ROOM)
            ⊎ (self.new ≡ self.old)) }
        ensures err { OnErr result (self.new ≡ self.old) }
    {
        match command {
            BareCommand::AtDesk(command) => self.settle_command(command, replies),
            other => self.tell(Some(SiteCommand::Bare(other)), replies),
        }
    }

    /// One of the two, by whether the client waits.
    fn tell_by(
        &mut self,
        waits: bool,
        command: Option<SiteCommand>,
        replies: &mut Replies<Global>,
    ) -> Result<Answered, OutOfMemory>
        requires { replies.old.part ≡ [] }
        ensures ok { IfOk result (λ how. (text : List ℕ)
            × TellsBy P.size P.sends P.stops waits (B.has_ended self.old.signal) (B.has_left self.old.signal) D.id command self.old.seat self.old.peers
            (record { text = text; how = how }) self.new.seat self.new.peers × AddsReply replies.old replies.new text) }
        ensures short { OnOk result ((length replies.new.whole ≤ length replies.old.whole + TICK_ROOM)
            ⊎ (self.new ≡ self.old)) }
        ensures err { OnErr result (self.new ≡ self.old) }
    {
        if waits {
            self.tell_settled(command, replies)
        } else {
            self.tell(command, replies)
        }
    }

    /// Answers a line of a request, by the key of the request and by whether the client waits.
    fn tell_request(
        &mut self,
        key: Option<Key>,
        waits: bool,
        text: Option<&[u8]>,
        replies: &mut Replies<Global>,
    ) -> Result<Answered, OutOfMemory>
        requires { replies.old.part ≡ [] }
        ensures ok { IfOk result (λ how. (line : List ℕ) → IsGiven line text.entry
            → (reply : List ℕ) × Answers P.size P.sends P.stops B.has_ended B.has_left B.shows D.id key waits self.old line
            (record { text = reply; how = how }) self.new × AddsReply replies.old replies.new reply) }
        ensures short { OnOk result ((length replies.new.whole ≤ length replies.old.whole + TICK_ROOM)
            ⊎ (self.new ≡ self.old)) }
        ensures err { OnErr result (self.new ≡ self.old) }
    {
        if key.is_none() && !waits {
            let time = self.signal.line_time();
            return self.tell_line(text, time, replies);
        }
        self.tell_asked(key, waits, text, replies)
    }

    /// The same, of which nothing is inlined: where a line has no key, no room for one is made ready.
    #[inline(never)]
    fn tell_asked(
        &mut self,
        key: Option<Key>,
        waits: bool,
        text: Option<&[u8]>,
        replies: &mut Replies<Global>,
    ) -> Result<Answered, OutOfMemory>
        requires { replies.old.part ≡ [] }
        ensures ok { IfOk result (λ how. (line : List ℕ) → IsGiven line text.entry
            → (reply : List ℕ) × Answers P.size P.sends P.stops B.has_ended B.has_left B.shows D.id key waits self.old line
            (record { text = reply; how = how }) self.new × AddsReply replies.old replies.new reply) }
        ensures short { OnOk result ((length replies.new.whole ≤ length replies.old.whole + TICK_ROOM)
            ⊎ (self.new ≡ self.old)) }
        ensures err { OnErr result (self.new ≡ self.old) }
    {
        let command = under(key, self.command_in(text));
        self.tell_by(waits, command, replies)
    }
}

/// The command under the key of its request, if that has one.
fn under(key: Option<Key>, command: Option<SiteCommand>) -> Option<SiteCommand>
    ensures { result ≡ under key command }
{
    match key {
        Some(key) => with_key(command, key),
        None => command,
    }
}

impl<D: DeskNames, R: Wait, P: Peers + Drop, B: TickSignal + Drop> Backend
    for SiteClient<'_, D, R, P, B> {
    ghost use Rattle.site_server.specs.Replying.{TellsLog, TellsPeers, TellsQueue, TellsStatus};
    ghost use Rattle.site_server.specs.Measuring.{TellsMetrics, TellsClosed};

    ghost answers = { Answers P.size P.sends P.stops B.has_ended B.has_left B.shows D.id };

    ghost status = { λ _ text. TellsStatus D.id text };

    ghost queue = { λ _ text. TellsQueue D.id text };

    ghost known = { λ _ text. TellsPeers D.id text };

    ghost listed = { λ _ first text. TellsLog D.id first text };

    ghost metrics = { λ _ text. TellsMetrics D.id text };

    ghost closed = { λ _ is_closed. TellsClosed D.id is_closed };

    fn reply(
        &mut self,
        key: Option<Key>,
        waits: bool,
        text: Option<&[u8]>,
        replies: &mut Replies<Global>,
    ) -> Result<Answered, OutOfMemory> {
        let answered = self.tell_request(key, waits, text, replies)?;
        self.count(answered);
        Ok(answered)
    }

    fn begin(&self) {
        self.signal.begin();
    }

    fn has_room(&self, len: usize) -> bool {
        self.site.has_room(self.rt, self.index, len)
    }

    fn put_status(&self, replies: &mut Replies<Global>) -> Result<(), OutOfMemory> {
        self.tell_status(replies)
    }

    fn put_queue(&self, replies: &mut Replies<Global>) -> Result<(), OutOfMemory> {
        self.tell_queue(replies)
    }

    fn put_peers(&self, replies: &mut Replies<Global>) -> Result<(), OutOfMemory> {
        self.tell_peers(replies)
    }

    fn put_log(&self, first: u64, replies: &mut Replies<Global>) -> Result<(), OutOfMemory> {
        self.tell_log(first, replies)
    }

    fn put_metrics(&self, replies: &mut Replies<Global>) -> Result<(), OutOfMemory> {
        self.tell_metrics(replies)
    }

    fn is_closed(&self) -> bool {
        self.closed()
    }
}
