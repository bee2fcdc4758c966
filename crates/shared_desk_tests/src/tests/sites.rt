//! Two sites whose desks are shared, with commands and replies as text.
ghost use Rattle.std.specs.Prelude.{◌≡◌, ◌≤◌, [], false};
ghost use Rattle.apply_lanes.specs.Names.{id_of, AreBlank, IsUnused};

use crate::tests::desks::{applier_at, seat_at};
use apply_lanes::{
    Applier, Arrived, Blanks, DeskMessage, DeskNames, DeskView, Free, Intake, Kept, Outlet, Seat,
    SharedDesk, VerdictCounts, lane,
};
use inbound::Inbound;
use request_queue::Status;
use rights_types::{Ask, Deny, OutOfMemory, Query, SiteId};
use site_core::{AskReply, Desk, DeskError, Spending};
use std::alloc::{AllocError, Global};
use std::process::Abort;
use std::str;
use std::sync::Wait;
use std::time::Clock;
use transfer_manager::{AskAnswer, SiteSet};

/// One of two sites, with its input from the other one.
#[derive(Drop)]
pub(crate) struct Site<D: DeskNames> {
    desk: SharedDesk<D>,
    seat: Seat<D>,
    applier: Applier<D, Free>,
    intake: Intake,
    ghost open: { intake.finished ≡ false },
}

// The intake for its peer, and the outlet of its lane.
fn link_between<R: Abort>(
    rt: &R,
    alloc: Global,
    me: SiteId,
    peer: SiteId,
    sites: u64,
) -> (Intake, Outlet)
    requires sites { (2 ≤ sites) × (sites ≤ 16) }
    requires me { me ≤ sites }
    ensures { (result.0.finished ≡ false) × (result.1.taken ≡ []) }
{
    assert!(rt; peer != me && peer.number() <= sites);
    let inbound = Inbound::new(alloc, me, peer, sites).expect(rt, "an inbound");
    let (inlet, outlet) = lane(alloc, 32).expect(rt, "a lane");
    (Intake::new(inbound, inlet), outlet)
}

/// A site of two at the start.
pub(crate) fn opened<D: DeskNames, R: Wait + Abort>(
    rt: &R,
    alloc: Global,
    desk: Desk,
    blanks: Blanks,
    peer: SiteId,
) -> Site<D>
    requires id { D.id ≡ id_of desk blanks }
    requires blanks { AreBlank blanks }
    requires unused { IsUnused desk }
{
    let (intake, outlet) = link_between(rt, alloc, desk.site(), peer, desk.sites());
    let desk = SharedDesk::<D>::new(desk, blanks);
    Site {
        seat: seat_at(rt, &desk),
        applier: applier_at(rt, &desk, peer.number(), outlet, Free),
        intake,
        desk,
    }
}

/// Whether the host had memory for a text.
type Put = Result<(), AllocError>;

const NOTHING: &str = "nothing";

const NO_MEMORY: &str = "error OutOfMemory";

/// A command, and what its words are.
#[derive(Clone, Copy)]
enum Verb {
    /// At most two numbers.
    Call(Call),
    /// A peer.
    Line(Line),
    /// A line of the peer.
    Hear,
    /// Whether it asks again for what it asked for before.
    Query(bool),
    Step,
    View,
}

/// A call under the lock that makes no line.
#[derive(Clone, Copy)]
enum Call {
    Issue,
    Spend,
    Take,
    Serve,
    Give,
    Expire,
    Status,
    Cancel,
    Plan,
    PlanBeside,
    Close,
}

/// A call under the lock that makes a line for a peer.
#[derive(Clone, Copy)]
enum Line {
    Ask,
    Publish,
    Beat,
}

const VERBS: [(&str, Verb); 19] = [
    ("hear", Verb::Hear),
    ("step", Verb::Step),
    ("query", Verb::Query(false)),
    ("requery", Verb::Query(true)),
    ("view", Verb::View),
    ("issue", Verb::Call(Call::Issue)),
    ("spend", Verb::Call(Call::Spend)),
    ("take", Verb::Call(Call::Take)),
    ("serve", Verb::Call(Call::Serve)),
    ("give", Verb::Call(Call::Give)),
    ("expire", Verb::Call(Call::Expire)),
    ("status", Verb::Call(Call::Status)),
    ("cancel", Verb::Call(Call::Cancel)),
    ("plan", Verb::Call(Call::Plan)),
    ("plan_beside", Verb::Call(Call::PlanBeside)),
    ("close", Verb::Call(Call::Close)),
    ("ask", Verb::Line(Line::Ask)),
    ("publish", Verb::Line(Line::Publish)),
    ("beat", Verb::Line(Line::Beat)),
];

/// The result of a call that makes no line.
#[derive(Clone, Copy)]
enum Said {
    Word(&'static str),
    Number(&'static str, u64),
    /// The ticket, the number and the amount.
    Served(u64, u64, u64),
    Error(DeskError),
}

fn verb_of(name: &str) -> Option<Verb> {
    for (each, verb) in &VERBS {
        if *each == name {
            return Some(*verb);
        }
    }
    None
}

// The text before the first space, and after it.
fn cut(text: &str) -> (&str, &str) {
    text.split_once(' ').unwrap_or((text, ""))
}

// The number that the text spells, else 0.
fn number(text: &str) -> u64 {
    text.parse().unwrap_or(0)
}

// The one or the other of two sites.
fn peer(number: u64) -> SiteId {
    SiteId::known(if number == 1 { 1 } else { 2 })
}

fn put_said(text: &mut String, said: Said) -> Put {
    match said {
        Said::Word(word) => text.push_str(word),
        Said::Number(word, number) => write!(text, "{word} {number}"),
        Said::Served(ticket, number, amount) => {
            write!(text, "served {ticket} {number} amount {amount}")
        }
        Said::Error(error) => write!(text, "error {error:?}"),
    }
}

// A number after a word, or why there is none.
fn numbered(word: &'static str, answer: Result<u64, DeskError>) -> Said {
    match answer {
        Ok(number) => Said::Number(word, number),
        Err(error) => Said::Error(error),
    }
}

fn outcome(status: Status) -> Said {
    match status {
        Status::Waiting => Said::Word("waiting"),
        Status::Spent(number) => Said::Number("spent", number),
        Status::Expired => Said::Word("expired"),
        Status::Unknown => Said::Word("unknown"),
    }
}

// Calls under the lock, each in a function of its own, as a check of many together takes long.

fn issue<D: DeskNames>(kept: &mut Kept<D>, seat: &mut Seat<D>, n: u64) -> Said {
    numbered("number", kept.issue(seat, n))
}

fn spend<D: DeskNames>(kept: &mut Kept<D>, seat: &mut Seat<D>, n: u64, deadline: u64) -> Said {
    match kept.spend(seat, n, deadline) {
        Ok(Spending::Spent(number)) => Said::Number("spent", number),
        Ok(Spending::Queued(ticket)) => Said::Number("queued", ticket),
        Err(error) => Said::Error(error),
    }
}

fn take<D: DeskNames>(kept: &mut Kept<D>, seat: &mut Seat<D>, n: u64) -> Said {
    numbered("spent", kept.take(seat, n))
}

fn serve<D: DeskNames>(kept: &mut Kept<D>, seat: &mut Seat<D>) -> Said {
    match kept.serve(seat) {
        Ok(Some((ticket, number, amount))) => Said::Served(ticket, number, amount),
        Ok(None) => Said::Word(NOTHING),
        Err(error) => Said::Error(error),
    }
}

fn give<D: DeskNames>(kept: &mut Kept<D>, peer: SiteId, n: u64) -> Said {
    numbered("number", kept.give_back(peer, n))
}

fn expire<D: DeskNames>(kept: &mut Kept<D>, time: u64) -> Said {
    numbered("expired", kept.expire(time))
}

fn status<D: DeskNames>(kept: &mut Kept<D>, ticket: u64) -> Said {
    outcome(kept.status(ticket))
}

fn cancel<D: DeskNames>(kept: &mut Kept<D>, ticket: u64) -> Said {
    outcome(kept.cancel(ticket))
}

fn plan<D: DeskNames>(kept: &mut Kept<D>) -> Said {
    Said::Number("asks", kept.plan())
}

// A plan while that peer is silent.
fn plan_beside<D: DeskNames>(kept: &mut Kept<D>, peer: SiteId) -> Said {
    let mut silent = SiteSet::new();
    silent.insert(peer);
    Said::Number("asks", kept.plan_beside(&silent))
}

// Closes for the heir of this number, if it is one.
fn close<D: DeskNames>(kept: &mut Kept<D>, heir: u64) -> Said {
    numbered("number", kept.close(SiteId::new(heir).ok()))
}

fn make<D: DeskNames>(
    kept: &mut Kept<D>,
    seat: &mut Seat<D>,
    call: Call,
    first: u64,
    second: u64,
) -> Said {
    match call {
        Call::Issue => issue(kept, seat, first),
        Call::Spend => spend(kept, seat, first, second),
        Call::Take => take(kept, seat, first),
        Call::Serve => serve(kept, seat),
        Call::Give => give(kept, peer(first), second),
        Call::Expire => expire(kept, first),
        Call::Status => status(kept, first),
        Call::Cancel => cancel(kept, first),
        Call::Plan => plan(kept),
        Call::PlanBeside => plan_beside(kept, peer(first)),
        Call::Close => close(kept, first),
    }
}

// Adds a line without its line feed.
fn put_bytes(text: &mut String, line: &[u8]) -> Put {
    let line = str::from_utf8(line).unwrap_or("");
    text.push_str(line.strip_suffix('\n').unwrap_or("no line"))
}

// Adds a line, if there is one.
fn put_line(text: &mut String, line: Result<Option<Vec<u8>>, OutOfMemory>) -> Put {
    match line {
        Ok(Some(line)) => put_bytes(text, &line),
        Ok(None) => text.push_str(NOTHING),
        Err(OutOfMemory) => text.push_str(NO_MEMORY),
    }
}

fn put_beat<D: DeskNames>(text: &mut String, kept: &Kept<D>, peer: SiteId) -> Put {
    match kept.beat_line(peer) {
        Ok(line) => put_bytes(text, &line),
        Err(OutOfMemory) => text.push_str(NO_MEMORY),
    }
}

fn put_line_to<D: DeskNames>(
    text: &mut String,
    kept: &mut Kept<D>,
    line: Line,
    peer: SiteId,
) -> Put {
    match line {
        Line::Ask => put_line(text, kept.ask_line(peer)),
        Line::Publish => put_line(text, kept.publish(peer)),
        Line::Beat => put_beat(text, kept, peer),
    }
}

fn put_totals(text: &mut String, view: &DeskView) -> Put {
    let (issued, spent, given) = (view.issued, view.spent, view.given);
    write!(text, "issued {issued} spent {spent} given {given}")?;
    let (back, received, held) = (view.back, view.received, view.held);
    write!(text, " back {back} received {received} held {held}")
}

// Adds the desk's reply to the content of a line.
fn put_arrived<D: DeskNames>(text: &mut String, kept: &mut Kept<D>, arrived: Arrived) -> Put {
    match arrived {
        Arrived::Entries(counts) => put_counts(text, counts),
        Arrived::Beat(_) => text.push_str("beat"),
        Arrived::Hello => text.push_str("hello"),
        Arrived::Message(message) => put_message(text, kept, message),
    }
}

fn put_message<D: DeskNames>(text: &mut String, kept: &mut Kept<D>, message: DeskMessage) -> Put {
    match message {
        DeskMessage::Query(query) => put_answer(text, kept, &query),
        DeskMessage::Ask(ask) => put_granted(text, kept, &ask),
        DeskMessage::Deny(deny) => text.push_str(denied(kept, deny)),
    }
}

fn put_counts(text: &mut String, counts: VerdictCounts) -> Put {
    let (ready, held, repeat) = (counts.ready, counts.held, counts.repeat);
    write!(text, "ready {ready} held {held} repeat {repeat}")
}

fn put_answer<D: DeskNames>(text: &mut String, kept: &Kept<D>, query: &Query) -> Put {
    match kept.on_query(query) {
        Ok(line) => put_bytes(text, &line),
        Err(error) => write!(text, "error {error:?}"),
    }
}

fn put_granted<D: DeskNames>(text: &mut String, kept: &mut Kept<D>, ask: &Ask) -> Put {
    if ask.asker().number() > kept.desk().sites() || ask.asked() != kept.desk().site() {
        return text.push_str("no peer");
    }
    match kept.on_ask(ask) {
        Ok(reply) => put_ask_reply(text, &reply),
        Err(OutOfMemory) => text.push_str(NO_MEMORY),
    }
}

fn put_ask_reply(text: &mut String, reply: &AskReply) -> Put {
    match (reply.answer, reply.number) {
        (AskAnswer::Grant(_), Some(number)) => put_said(text, Said::Number("granted", number)),
        (AskAnswer::Deny | AskAnswer::RepeatedDeny, None) => put_denial(text, reply),
        (AskAnswer::Repeated, None) => text.push_str("repeated"),
        (AskAnswer::OldAsk, None) => text.push_str("old"),
        _ => text.push_str("no answer"),
    }
}

fn put_denial(text: &mut String, reply: &AskReply) -> Put {
    text.push_str("denied ")?;
    match &reply.line {
        Some(line) => put_bytes(text, line.bytes()),
        None => Ok(()),
    }
}

fn denied<D: DeskNames>(kept: &mut Kept<D>, deny: Deny) -> &'static str {
    if deny.denier().number() > kept.desk().sites() {
        return "no peer";
    }
    kept.on_deny(deny.denier(), deny.ask());
    "noted"
}

// These words as a line.
fn line_of(alloc: Global, words: &str) -> Result<String, AllocError> {
    let mut line = String::from_str(alloc, words)?;
    line.push('\n')?;
    Ok(line)
}

impl<D: DeskNames> Site<D> {
    /// Adds the site's reply to a command.
    pub(crate) fn put_reply<R: Wait + Clock + Abort>(
        &mut self,
        rt: &R,
        alloc: Global,
        text: &mut String,
        command: &str,
    ) -> Put {
        let (name, words) = cut(command);
        match verb_of(name) {
            Some(Verb::Call(call)) => put_said(text, self.say(rt, call, words)),
            Some(Verb::Line(line)) => self.put_line_to(rt, text, line, number(words)),
            Some(Verb::Hear) => self.hear(rt, alloc, text, words),
            Some(Verb::Query(again)) => put_line(text, self.intake.query_line(again)),
            Some(Verb::Step) => self.step(rt, text),
            Some(Verb::View) => put_totals(text, &self.view(rt)),
            None => text.push_str("no command"),
        }
    }

    fn say<R: Wait>(&mut self, rt: &R, call: Call, words: &str) -> Said {
        let (first, second) = cut(words);
        let mut kept = self.desk.lock(rt);
        make(
            &mut kept,
            &mut self.seat,
            call,
            number(first),
            number(second),
        )
    }

    fn put_line_to<R: Wait>(&mut self, rt: &R, text: &mut String, line: Line, to: u64) -> Put {
        let mut kept = self.desk.lock(rt);
        put_line_to(text, &mut kept, line, peer(to))
    }

    // Takes an entry from the lane, and applies or drops it.
    fn step<R: Wait + Clock>(&mut self, rt: &R, text: &mut String) -> Put {
        let answer = self.applier.step(rt, &self.desk);
        write!(text, "{answer:?}")
    }

    fn view<R: Wait>(&self, rt: &R) -> DeskView {
        self.desk.lock(rt).view()
    }

    fn hear<R: Wait + Abort>(
        &mut self,
        rt: &R,
        alloc: Global,
        text: &mut String,
        words: &str,
    ) -> Put {
        let line = line_of(alloc, words).expect(rt, "memory");
        match self.intake.on_line(rt, line.as_bytes()) {
            Ok(arrived) => self.put_arrived(rt, text, arrived),
            Err(error) => write!(text, "error {error:?}"),
        }
    }

    fn put_arrived<R: Wait>(&mut self, rt: &R, text: &mut String, arrived: Arrived) -> Put {
        let mut kept = self.desk.lock(rt);
        put_arrived(text, &mut kept, arrived)
    }
}
