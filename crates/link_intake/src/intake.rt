//! The input from one other site: lines arrive, and entries leave on a lane.
ghost use Rattle.std.specs.Prelude.{◌≡◌, ◌≤◌, ◌<◌, ◌++◌, [], ◌∷◌, true, false, List, Option, None, Ok, IfOk, IfErr, OnOk};
ghost use Rattle.std.specs.Prelude.{OnErr, IsErr, MatchResult, IsSome, length};
ghost use Rattle.std.specs.Option.{option_map};
ghost use Rattle.std.specs.List.{All, Contains};
ghost use Rattle.rights_types.specs.Entries.{EntryValue};
ghost use Rattle.rights_types.specs.Chains.{IsChain, is_closed};
ghost use Rattle.rights_types.specs.Messages.{QueryValue, MessageValue};
ghost use Rattle.rights_types.specs.Messages.MessageValue.{AQuery, AnEntry};
ghost use Rattle.entry_codec.specs.Reading.{reading, has_entries};
ghost use Rattle.sub_buffer.specs.declared.arrivals.TheConstants.{MAX_VERDICTS};
ghost use Rattle.sub_buffer.specs.Gaps.{GapOf, GapIs, StateOf};
ghost use Rattle.sub_buffer.specs.Follows.{HasPut, Follows};
ghost use Rattle.sub_buffer.specs.declared.verdict.Verdict.TheVariants.{Ready as IsReady};
ghost use Rattle.inbound.specs.declared.fault.InboundError.TheVariants.{OutOfMemory as NoMemory};
ghost use Rattle.entry_codec.specs.Spelling.{LineOf};
ghost use Rattle.inbound.specs.Inbounds.{QueryOf, IsWritten, ready_in, Arrives, InboundRefuses, message_fault};
ghost use Rattle.thread_parts.specs.Items.{IsOpen, IsEnded};
ghost use Rattle.link_intake.specs.Intakes.{counts_of, with_verdict, all_counts, verdicts_of, ready_of, arrived_of};
ghost use Rattle.link_intake.specs.Intakes.{arrival_of};
ghost use Rattle.link_intake.specs.Intakes.{CanPut, PutsAll, PutsFront, with_end};
ghost use Rattle.link_intake.specs.declared.intake.IntakeError.TheVariants.{Inbound as BadLine};
ghost use Rattle.link_intake.specs.declared.intake.IntakeError.TheVariants.{LaneClosed as ClosedLane};
ghost use Rattle.link_intake.specs.declared.intake.Arrived.TheVariants.{Entries as EntriesCame};

use crate::desk_message::DeskMessage;
use inbound::{Arrival, Inbound, InboundError};
use rights_types::{Beat, Entry, Message, OutOfMemory, Query};
use std::alloc::{Allocator, Global};
use std::marker::Model;
use std::sync::Wait;
use sub_buffer::{MAX_VERDICTS, State, Verdict};
use thread_parts::{Inlet, LaneClosed};

/// How many entries of one line got each verdict.
#[derive(Clone, Copy, Debug, PartialEq, Eq)]
pub struct VerdictCounts {
    pub ready: usize,
    pub held: usize,
    pub repeat: usize,
    pub after_close: usize,
    pub full: usize,
}

const NO_VERDICTS: VerdictCounts = VerdictCounts {
    ready: 0,
    held: 0,
    repeat: 0,
    after_close: 0,
    full: 0,
};

/// What a line contained. Entries that are ready have been put on the lane.
#[derive(Clone, Copy, Debug, PartialEq, Eq)]
pub enum Arrived {
    /// Entries.
    Entries(VerdictCounts),
    /// A beat.
    Beat(Beat),
    /// A message for the desk.
    Message(DeskMessage),
    /// The first line of a connection.
    Hello,
}

/// Why a line was not taken in, in the order in which the causes are checked.
#[derive(Clone, Copy, Debug, PartialEq, Eq)]
pub enum IntakeError {
    /// The line is to be skipped: it had no effect.
    Inbound(InboundError),
    /// The lane's other end is gone. The intake is dead: it takes in no further line.
    LaneClosed,
}

// What a line brought.
#[derive(Drop)]
pub(crate) enum Came<A: Allocator> {
    // The next entry, which is ready, and frees none.
    Next(Entry<A>),
    Other(Arrival<A>),
}

/// The input from one other site. The entries that it delivers in order go to a lane; no call borrows a desk.
#[derive(Drop)]
pub struct Intake<A: Allocator = Global> {
    inbound: Inbound<A>,
    inlet: Inlet<A>,
    ended: bool,
    finished: bool,
}

impl<A: Allocator> Model for Intake<A> {
    ghost use Rattle.link_intake.specs.Intakes.{IntakeValue, IsIntake};

    ghost Value = { IntakeValue A };

    ghost view = { λ i. record { inbound = i.inbound; inlet = i.inlet; ended = i.ended; finished = i.finished } };

    ghost invariant = { λ i. IsIntake
        (record { inbound = i.inbound; inlet = i.inlet; ended = i.ended; finished = i.finished }) };
}

impl<A: Allocator> Intake<A> {
    ghost use Rattle.link_intake.specs.Intakes.{IsIntake};

    /// The end of its lane, which it is taken apart for. What the buffer delivered went onto it, but for what was
    /// still to be sent when the lane was found closed.
    pub fn into_inlet(self) -> Inlet<A>
        ensures inlet { result ≡ self.inlet }
        ensures sent { IsIntake self }
    {
        let Intake {
            inbound: _,
            inlet,
            ended: _,
            finished: _,
        } = self;
        inlet
    }
}

impl<A: Allocator + Copy> Intake<A> {
    ghost use Rattle.link_intake.specs.Intakes.{IntakeValue, IntakeRefuses, LineLeaves, entries_read, Receives};
    ghost use Rattle.link_intake.specs.Intakes.{ReceivesMore};

    /// What comes in to an inbound to which nothing came, by a new lane.
    pub fn new(inbound: Inbound<A>, inlet: Inlet<A>) -> Intake<A>
        requires inbound { HasPut [] inbound.buffer }
        requires inlet { (inlet.put ≡ []) × (inlet.dead ≡ false) }
        ensures value { result ≡ record { inbound = inbound; inlet = inlet; ended = false; finished = false } }
        ensures log { (es : List EntryValue) → Follows es [] [] inbound.buffer → Receives es [] result }
    {
        Intake {
            inbound,
            inlet,
            ended: false,
            finished: false,
        }
    }

    /// Takes a line in, and puts the entries that become ready on the lane; after a closing entry also End. It blocks
    /// while the lane is full. It must not be called after `finish`. Errors, in this order: that of
    /// `Inbound::on_line`; `LaneClosed`.
    pub fn on_line<R: Wait>(&mut self, rt: &R, line: &[u8]) -> Result<Arrived, IntakeError>
        requires { self.old.finished ≡ false }
        ensures refused { IntakeRefuses self.old.inbound (reading line.now) result }
        ensures leaves { LineLeaves self.old (reading line.now) result self.new }
        ensures dead { self.old.inlet.dead ≡ true → IsErr result × (self.new.inlet ≡ self.old.inlet) }
        ensures lane { self.new.inlet.lane ≡ self.old.inlet.lane }
        ensures unfinished { self.new.finished ≡ false }
        // Where the entries that come are of the origin's log es.
        ensures log { (es reached : List EntryValue) → All (Contains es) (entries_read (reading line.now))
            → Receives es reached self.old
            → ReceivesMore es reached (entries_read (reading line.now)) self.new }
        // Only entries take memory.
        ensures memory { IfErr result (λ fault. fault ≡ BadLine NoMemory
            → (m : MessageValue) × (reading line.now ≡ Ok m) × (has_entries m ≡ true)) }
    {
        let came = match receive(&mut self.inbound, line) {
            Ok(came) => came,
            Err(fault) => return Err(IntakeError::Inbound(fault)),
        };
        if self.inlet.is_dead() {
            return Err(IntakeError::LaneClosed);
        }
        take_in(rt, &mut self.inlet, &mut self.ended, came)
    }

    /// The line of the query for the gap: with `again` if there is a gap, else only if it is not the gap that was
    /// queried last. `None` if there is none to send. The gap counts as queried afterwards, even if there was no
    /// memory for the line.
    pub fn query_line(&mut self, again: bool) -> Result<Option<Vec<u8, A>>, OutOfMemory>
        ensures query { (q : Option QueryValue) × QueryOf self.old.inbound again q self.new.inbound
            × MatchResult result (λ line. LineOf (λ l. l.items) (option_map (λ x. AQuery x) q) line) (λ _. IsSome q) }
        ensures rest { self.new ≡ record self.old { inbound = self.new.inbound } }
        ensures log { (es reached : List EntryValue) → Receives es reached self.old → Receives es reached self.new }
    {
        self.inbound.query_line(again)
    }

    /// The query for the gap with its line, where `query_line` returns the line alone.
    pub fn query_with_line(
        &mut self,
        again: bool,
    ) -> Result<Option<(Query, Vec<u8, A>)>, OutOfMemory>
        ensures query { (q : Option QueryValue) × QueryOf self.old.inbound again q self.new.inbound
            × MatchResult result (λ given. IsWritten (λ l. l.items) q given) (λ _. IsSome q) }
        ensures rest { self.new ≡ record self.old { inbound = self.new.inbound } }
        ensures log { (es reached : List EntryValue) → Receives es reached self.old → Receives es reached self.new }
    {
        self.inbound.query_with_line(again)
    }

    /// Puts End, unless it was put already. It blocks while the lane is full.
    pub fn finish<R: Wait>(&mut self, rt: &R) -> Result<(), LaneClosed<A>>
        ensures ok { OnOk result ((self.new.ended ≡ true) × IsEnded self.new.inlet.put
            × (self.new.inlet.put ≡ with_end self.old.ended self.old.inlet.put)) }
        ensures err { OnErr result ((self.old.ended ≡ false)
            × (self.new ≡ record self.old { inlet = record self.old.inlet { dead = true } })) }
        ensures dead { self.old.ended ≡ false → self.old.inlet.dead ≡ true → IsErr result }
        ensures rest { (self.new.inbound ≡ self.old.inbound) × (self.new.inlet.lane ≡ self.old.inlet.lane) }
        ensures log { (es reached : List EntryValue) → Receives es reached self.old → Receives es reached self.new }
    {
        if !self.ended {
            self.inlet.end(rt)?;
            self.ended = true;
            self.finished = true;
        }
        Ok(())
    }

    /// `Buffering` while there is a gap.
    pub fn state(&self) -> State
        ensures table { (gap : Option QueryValue) × GapOf self.now.inbound.buffer gap × StateOf gap result }
        ensures log { (es set put : List EntryValue) → Follows es set put self.now.inbound.buffer
            → (gap : Option QueryValue)
            × GapIs self.now.inbound.buffer.me self.now.inbound.buffer.origin set put self.now.inbound.buffer.told gap
            × StateOf gap result }
    {
        self.inbound.state()
    }

    /// How many entries are held, 0 to 64.
    pub fn held_count(&self) -> usize
        ensures { result ≡ length self.now.inbound.buffer.held }
    {
        self.inbound.held_count()
    }
}

// Takes a line in as `Inbound::on_line` does. An entry that is the next one needs no list of verdicts.
fn receive<A: Allocator + Copy>(
    inbound: &mut Inbound<A>,
    line: &[u8],
) -> Result<Came<A>, InboundError>
    ensures refused { InboundRefuses inbound.old (reading line.now) result }
    ensures ok { IfOk result (λ came. (m : MessageValue) × (reading line.now ≡ Ok m)
        × Arrives inbound.old m (arrival_of came) inbound.new) }
    ensures err { OnErr result (inbound.new ≡ inbound.old) }
    ensures memory { IfErr result (λ fault. fault ≡ NoMemory → (m : MessageValue) × (reading line.now ≡ Ok m)
        × (has_entries m ≡ true)) }
{
    let message = inbound.read(line)?;
    match message {
        Message::Push(entry) => Ok(receive_entry(inbound, entry)?),
        other => Ok(Came::Other(inbound.take_in(other)?)),
    }
}

fn receive_entry<A: Allocator + Copy>(
    inbound: &mut Inbound<A>,
    entry: Entry<A>,
) -> Result<Came<A>, OutOfMemory>
    requires { message_fault inbound.old (AnEntry entry) ≡ None }
    ensures ok { IfOk result (λ came. Arrives inbound.old (AnEntry entry) (arrival_of came) inbound.new) }
    ensures err { OnErr result (inbound.new ≡ inbound.old) }
{
    if inbound.arrive_next(&entry) {
        return Ok(Came::Next(entry));
    }
    Ok(Came::Other(inbound.take_in(Message::Push(entry))?))
}

// Puts the entries that became ready with what came, and returns what that was.
fn take_in<A: Allocator, R: Wait>(
    rt: &R,
    inlet: &mut Inlet<A>,
    ended: &mut bool,
    came: Came<A>,
) -> Result<Arrived, IntakeError>
    requires few { length (verdicts_of (arrival_of came)) ≤ MAX_VERDICTS }
    requires entries { CanPut ended.old inlet.old.put (ready_of (arrival_of came)) }
    requires live { inlet.old.dead ≡ false }
    ensures lane { inlet.new.lane ≡ inlet.old.lane }
    ensures ok { IfOk result (λ arrived. (arrived ≡ arrived_of (arrival_of came))
        × PutsAll inlet.old.put ended.old (ready_of (arrival_of came)) ended.new inlet.new) }
    ensures err { IfErr result (λ fault. (fault ≡ ClosedLane)
        × PutsFront inlet.old.put (ready_of (arrival_of came)) ended.new inlet.new) }
{
    match came {
        Came::Next(entry) => put_one(rt, inlet, ended, entry),
        Came::Other(arrival) => put_arrival(rt, inlet, ended, arrival),
    }
}

// Puts an entry that alone became ready.
fn put_one<A: Allocator, R: Wait>(
    rt: &R,
    inlet: &mut Inlet<A>,
    ended: &mut bool,
    entry: Entry<A>,
) -> Result<Arrived, IntakeError>
    requires entries { CanPut ended.old inlet.old.put (entry ∷ []) }
    ensures lane { inlet.new.lane ≡ inlet.old.lane }
    ensures ok { IfOk result (λ arrived. (arrived ≡ EntriesCame (counts_of {A = A} (IsReady entry ∷ [])))
        × PutsAll inlet.old.put ended.old (entry ∷ []) ended.new inlet.new) }
    ensures err { IfErr result (λ fault. (fault ≡ ClosedLane)
        × PutsFront inlet.old.put (entry ∷ []) ended.new inlet.new) }
{
    put_next(rt, inlet, ended, entry)?;
    Ok(Arrived::Entries(VerdictCounts {
        ready: 1,
        ..NO_VERDICTS
    }))
}

fn put_arrival<A: Allocator, R: Wait>(
    rt: &R,
    inlet: &mut Inlet<A>,
    ended: &mut bool,
    arrival: Arrival<A>,
) -> Result<Arrived, IntakeError>
    requires few { length (verdicts_of arrival) ≤ MAX_VERDICTS }
    requires entries { CanPut ended.old inlet.old.put (ready_of arrival) }
    requires live { inlet.old.dead ≡ false }
    ensures lane { inlet.new.lane ≡ inlet.old.lane }
    ensures ok { IfOk result (λ arrived. (arrived ≡ arrived_of arrival)
        × PutsAll inlet.old.put ended.old (ready_of arrival) ended.new inlet.new) }
    ensures err { IfErr result (λ fault. (fault ≡ ClosedLane)
        × PutsFront inlet.old.put (ready_of arrival) ended.new inlet.new) }
{
    match arrival {
        Arrival::Entries { verdicts } => put_entries(rt, inlet, ended, verdicts.into_vec()),
        Arrival::Beat(beat) => Ok(Arrived::Beat(beat)),
        Arrival::Query(query) => Ok(Arrived::Message(DeskMessage::Query(query))),
        Arrival::Ask(ask) => Ok(Arrived::Message(DeskMessage::Ask(ask))),
        Arrival::Deny(deny) => Ok(Arrived::Message(DeskMessage::Deny(deny))),
        Arrival::Hello => Ok(Arrived::Hello),
    }
}

// Puts the entries that are ready, and returns the number of verdicts of each kind.
fn put_entries<A: Allocator, R: Wait>(
    rt: &R,
    inlet: &mut Inlet<A>,
    ended: &mut bool,
    verdicts: Vec<Verdict<A>, A>,
) -> Result<Arrived, IntakeError>
    requires few { length verdicts.items ≤ MAX_VERDICTS }
    requires entries { CanPut ended.old inlet.old.put (ready_in verdicts.items) }
    requires live { inlet.old.dead ≡ false }
    ensures lane { inlet.new.lane ≡ inlet.old.lane }
    ensures ok { IfOk result (λ arrived. (arrived ≡ EntriesCame (counts_of verdicts.items))
        × PutsAll inlet.old.put ended.old (ready_in verdicts.items) ended.new inlet.new) }
    ensures err { IfErr result (λ fault. (fault ≡ ClosedLane)
        × PutsFront inlet.old.put (ready_in verdicts.items) ended.new inlet.new) }
{
    let counts = count(&verdicts);
    put_ready(rt, inlet, ended, verdicts)?;
    Ok(Arrived::Entries(counts))
}

// The number of verdicts of each kind.
fn count<A: Allocator>(verdicts: &[Verdict<A>]) -> VerdictCounts
    requires { length verdicts.now ≤ MAX_VERDICTS }
    ensures { result ≡ counts_of verdicts.now }
{
    let mut counts = NO_VERDICTS;
    for verdict in verdicts {
        count_one(&mut counts, verdict);
    }
    counts
}

// Counts one more verdict.
fn count_one<A: Allocator>(counts: &mut VerdictCounts, verdict: &Verdict<A>)
    requires { all_counts counts.old < MAX_VERDICTS }
    ensures { counts.new ≡ with_verdict counts.old verdict.now }
{
    match verdict {
        Verdict::Ready(_) => counts.ready += 1,
        Verdict::Held => counts.held += 1,
        Verdict::Repeat => counts.repeat += 1,
        Verdict::AfterClose => counts.after_close += 1,
        Verdict::Full => counts.full += 1,
    }
}

// Puts the entries that are ready, in order, and End after a closing entry.
fn put_ready<A: Allocator, R: Wait>(
    rt: &R,
    inlet: &mut Inlet<A>,
    ended: &mut bool,
    verdicts: Vec<Verdict<A>, A>,
) -> Result<(), IntakeError>
    requires entries { CanPut ended.old inlet.old.put (ready_in verdicts.items) }
    requires live { inlet.old.dead ≡ false }
    ensures lane { inlet.new.lane ≡ inlet.old.lane }
    ensures ok { OnOk result (PutsAll inlet.old.put ended.old (ready_in verdicts.items) ended.new inlet.new) }
    ensures err { IfErr result (λ fault. (fault ≡ ClosedLane)
        × PutsFront inlet.old.put (ready_in verdicts.items) ended.new inlet.new) }
{
    for verdict in verdicts {
        if let Err(fault) = put_if_ready(rt, inlet, ended, verdict) {
            return Err(fault);
        }
    }
    Ok(())
}

// Puts the verdict's entry, if it has one, and End after it if it is a closing entry.
fn put_if_ready<A: Allocator, R: Wait>(
    rt: &R,
    inlet: &mut Inlet<A>,
    ended: &mut bool,
    verdict: Verdict<A>,
) -> Result<(), IntakeError>
    requires entries { CanPut ended.old inlet.old.put (ready_in (verdict ∷ [])) }
    requires live { inlet.old.dead ≡ false }
    ensures lane { inlet.new.lane ≡ inlet.old.lane }
    ensures ok { OnOk result (PutsAll inlet.old.put ended.old (ready_in (verdict ∷ [])) ended.new inlet.new) }
    ensures err { IfErr result (λ fault. (fault ≡ ClosedLane)
        × PutsFront inlet.old.put (ready_in (verdict ∷ [])) ended.new inlet.new) }
{
    match verdict {
        Verdict::Ready(entry) => put_next(rt, inlet, ended, entry),
        Verdict::Held | Verdict::Repeat | Verdict::AfterClose | Verdict::Full => Ok(()),
    }
}

// Puts the entry, and End after it if it is a closing entry.
fn put_next<A: Allocator, R: Wait>(
    rt: &R,
    inlet: &mut Inlet<A>,
    ended: &mut bool,
    entry: Entry<A>,
) -> Result<(), IntakeError>
    requires { CanPut ended.old inlet.old.put (entry ∷ []) }
    ensures lane { inlet.new.lane ≡ inlet.old.lane }
    ensures ok { OnOk result (PutsAll inlet.old.put ended.old (entry ∷ []) ended.new inlet.new) }
    ensures err { IfErr result (λ fault. (fault ≡ ClosedLane)
        × PutsFront inlet.old.put (entry ∷ []) ended.new inlet.new) }
{
    let closes = entry.closes();
    let Ok(()) = inlet.put(rt, entry) else {
        return Err(IntakeError::LaneClosed);
    };
    if closes {
        let Ok(()) = inlet.end(rt) else {
            return Err(IntakeError::LaneClosed);
        };
        *ended = true;
    }
    Ok(())
}
