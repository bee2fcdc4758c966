//! Packets that arrive.
ghost use Rattle.std.specs.Prelude.{◌≡◌, ◌≢◌, true, None, IfOk, OnErr};
ghost use Rattle.rights_types.specs.Messages.{MessageValue};
ghost use Rattle.rights_types.specs.Values.{value_of};
ghost use Rattle.entry_codec.specs.Reading.{has_entries};
ghost use Rattle.entry_codec.specs.Spelling.{Spells};
ghost use Rattle.rights_protocol.specs.Lists.{IsSiteOf};
ghost use Rattle.world_core.specs.Worlds.{count, packet, packet_text};
ghost use Rattle.world_core.specs.Faults.{arrive_fault};
ghost use Rattle.world_core.specs.LinkEvents.{QueryComes, AskComes, MessageComes, PacketComes};
ghost use Rattle.world_core.specs.Sound.{IsWorld, IsSent, MayCome};

use crate::fault::WorldError;
use crate::keeping::Keeping;
use crate::packets::{Body, Packet};
use crate::reply::Reply;
use crate::system::System;
use inbound::InboundError;
use origin_log::ReadError;
use rights_types::{Ask, Message, OutOfMemory, Query, SiteId};
use site_core::Line;
use std::alloc::Allocator;
use transfer_manager::AskAnswer;

impl<A: Allocator + Copy, K: Keeping> System<A, K> {
    pub(super) fn arrive(&mut self, site: SiteId, number: u64) -> Result<Reply<A>, WorldError>
        requires kept { IsWorld self.old }
        requires place { arrive_fault self.old site number ≡ None }
        ensures { PacketComes self.old site (packet self.old number) result self.new }
    {
        let packet = self.packets.at(number as usize - 1);
        let from = packet.from();
        let message = self.read(&packet)?;
        self.message_comes(site, from, message)
    }

    // Reads the message of a packet.
    fn read(&self, packet: &Packet<'_>) -> Result<Message<A>, OutOfMemory>
        requires kept { IsWorld self.now }
        requires sent { IsSent self.now packet.now }
        ensures spelled { IfOk result (λ m. Spells (value_of m) (packet_text self.now packet.now)) }
        ensures may { IfOk result (λ m. MayCome self.now packet.now.from packet.now.to (value_of m)) }
        // Only entries allocate.
        ensures memory { OnErr result ((m : MessageValue) × Spells m (packet_text self.now packet.now)
            × (has_entries m ≡ true)) }
    {
        let Some(link) = self.links[packet.to().index()].get(packet.from()) else {
            unreachable!()
        };
        match link.read(self.line_of(packet)) {
            Ok(message) => Ok(message),
            Err(fault) => match fault {
                InboundError::OutOfMemory => Err(OutOfMemory),
                // What a site sent is not refused for any other cause.
                _ => unreachable!(),
            },
        }
    }

    /// The line of a packet.
    pub(crate) fn line_of<'a>(&'a self, packet: &Packet<'a>) -> &'a [u8]
        requires { IsSent self.now packet.now }
        ensures { result.now ≡ packet_text self.now packet.now }
    {
        match packet.body() {
            Body::Entry(place) => match self.desks[packet.from().index()].log().line(place) {
                Some(line) => line,
                None => unreachable!(),
            },
            Body::Own(line) => line,
        }
    }

    // A message of another site, of a kind that this site may have sent.
    fn message_comes(
        &mut self,
        site: SiteId,
        from: SiteId,
        message: Message<A>,
    ) -> Result<Reply<A>, WorldError>
        requires kept { IsWorld self.old }
        requires site { IsSiteOf (count self.old) site }
        requires from { IsSiteOf (count self.old) from }
        requires differ { site ≢ from }
        requires may { MayCome self.old from site (value_of message) }
        ensures { MessageComes self.old site from (value_of message) result self.new }
    {
        match message {
            Message::Push(entry) => {
                let links = &mut self.links[site.index()];
                let verdicts = links.take_entry(from, entry, &mut self.scratch)?;
                Ok(Reply::Verdicts(verdicts))
            }
            Message::Answer(answer) => {
                let entries = answer.into_entries();
                let links = &mut self.links[site.index()];
                let verdicts = links.take_answer(from, entries, &mut self.scratch)?;
                Ok(Reply::Verdicts(verdicts))
            }
            Message::Beat(beat) => {
                self.links[site.index()].hear(from, beat.number());
                Ok(Reply::HeardBeat)
            }
            Message::Query(query) => self.query_comes(site, &query),
            Message::Ask(ask) => self.ask_comes(site, &ask),
            Message::Deny(deny) => {
                self.desks[site.index()].on_deny(deny.denier(), deny.ask());
                Ok(Reply::Noted)
            }
            Message::Hello(_) => unreachable!(),
        }
    }

    fn query_comes(&mut self, site: SiteId, query: &Query) -> Result<Reply<A>, WorldError>
        requires { IsSiteOf (count self.old) site }
        ensures { QueryComes self.old site query.now result self.new }
    {
        let line = match self.desks[site.index()].on_query(query) {
            Ok(line) => line,
            Err(ReadError::OutOfMemory) => return Err(WorldError::OutOfMemory),
            Err(_) => return Ok(Reply::Nothing),
        };
        self.packets.reserve_line()?;
        let number = self.packets.add_line(site, query.asker(), Line::new(line));
        Ok(Reply::Packet(number))
    }

    fn ask_comes(&mut self, site: SiteId, ask: &Ask) -> Result<Reply<A>, WorldError>
        requires kept { IsWorld self.old }
        requires site { IsSiteOf (count self.old) site }
        requires asker { IsSiteOf (count self.old) ask.now.asker }
        requires asked { ask.now.asked ≡ site }
        ensures { AskComes self.old site ask.now result self.new }
    {
        self.packets.reserve_line()?;
        let reply = self.desks[site.index()].on_ask(ask)?;
        match (reply.answer, reply.number, reply.line) {
            (AskAnswer::Grant(_), Some(number), _) => Ok(Reply::Granted(number)),
            (AskAnswer::Deny | AskAnswer::RepeatedDeny, _, Some(line)) => {
                let number = self.packets.add_line(site, ask.asker(), line);
                Ok(Reply::Denied(number))
            }
            (AskAnswer::Repeated, _, _) => Ok(Reply::GrantedBefore),
            (AskAnswer::OldAsk, _, _) => Ok(Reply::Old),
            _ => unreachable!(),
        }
    }
}
