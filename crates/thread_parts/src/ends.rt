//! The two ends of a lane.
ghost use Rattle.std.specs.Prelude.{◌≡◌, ◌≤◌, [], ◌∷◌, ◌++◌, true, false, Some, None, IfOk, OnOk, OnErr, IsErr, IsNone};
ghost use Rattle.std.specs.Prelude.{IfSome, IfNone, OnSome, MatchResult, IfErr};
ghost use Rattle.rights_types.specs.Entries.{EntryValue};
ghost use Rattle.thread_parts.specs.Items.{MayBeFirst, Continues, Precedes, MayCome, IsOpen, IsItemChain, IsEnded};
ghost use Rattle.thread_parts.specs.Items.{Leaves};
ghost use Rattle.thread_parts.specs.declared.item.Item.{Item};

use crate::bells::{BellPull, looks_again};
use crate::item::Item;
use crate::rule::{InOrder, LaneConsumer, LaneProducer};
use rights_types::{Entry, OutOfMemory};
use rtrb::{PushError, RingBuffer};
use std::alloc::{Allocator, Global};
use std::marker::Model;
use std::sync::Wait;

/// The greatest number of items that a lane holds.
pub const MAX_LANE: usize = 32;

/// The other end of the lane is gone. An entry that could not be put is returned in `entry`, which is `None` if there
/// is none. From then on this end is dead: each later call returns this error.
#[derive(Drop)]
pub struct LaneClosed<A: Allocator = Global> {
    pub entry: Option<Entry<A>>,
}

/// The end of a lane that puts items.
#[derive(Drop)]
pub struct Inlet<A: Allocator = Global> {
    pub(crate) producer: LaneProducer<A>,
    pub(crate) dead: bool,
    // The last field, since it is to be dropped last.
    pub(crate) pull: BellPull<A>,
}

impl<A: Allocator> Model for Inlet<A> {
    ghost use Rattle.rtrb.specs.Ring.{sent};
    ghost use Rattle.thread_parts.specs.Items.{IsItemChain};
    ghost use Rattle.thread_parts.specs.Ends.{InletValue, inlet_lane};

    ghost Value = { InletValue A };

    ghost view = { λ i. record { lane = inlet_lane i.producer; put = sent i.producer; dead = i.dead } };

    ghost invariant = { λ i. IsItemChain (sent i.producer) };
}

/// The end of a lane that takes items.
#[derive(Drop)]
pub struct Outlet<A: Allocator = Global> {
    pub(crate) consumer: LaneConsumer<A>,
    pub(crate) dead: bool,
    // The last field, since it is to be dropped last.
    pub(crate) pull: BellPull<A>,
}

impl<A: Allocator> Model for Outlet<A> {
    ghost use Rattle.rtrb.specs.Ring.{received};
    ghost use Rattle.thread_parts.specs.Items.{IsItemChain};
    ghost use Rattle.thread_parts.specs.Ends.{OutletValue, outlet_lane};

    ghost Value = { OutletValue A };

    ghost view = { λ o. record { lane = outlet_lane o.consumer; taken = received o.consumer; dead = o.dead } };

    ghost invariant = { λ o. IsItemChain (received o.consumer) };
}

/// The two ends of a new lane, which holds at most `capacity` items, 1 to `MAX_LANE`. Its memory is requested here;
/// no later call requests any.
pub fn lane<A: Allocator + Copy>(
    alloc: A,
    capacity: usize,
) -> Result<(Inlet<A>, Outlet<A>), OutOfMemory>
    requires { (1 ≤ capacity) × (capacity ≤ MAX_LANE) }
    ensures lane { IfOk result (λ r. r.1.lane ≡ r.0.lane) }
    ensures capacity { IfOk result (λ r. r.0.lane.capacity ≡ capacity) }
    ensures inlet { IfOk result (λ r. (r.0.put ≡ []) × (r.0.dead ≡ false)) }
    ensures first { IfOk result (λ r. (e : EntryValue) → MayBeFirst e → Continues r.0.put e) }
    ensures outlet { IfOk result (λ r. (r.1.taken ≡ []) × (r.1.dead ≡ false)) }
{
    let (producer, consumer) = RingBuffer::with_protocol::<A, InOrder>(alloc, capacity)?;
    let (one, other) = BellPull::pair(alloc)?;
    let inlet = Inlet {
        producer,
        dead: false,
        pull: one,
    };
    let outlet = Outlet {
        consumer,
        dead: false,
        pull: other,
    };
    Ok((inlet, outlet))
}

impl<A: Allocator> Inlet<A> {
    /// Whether LaneClosed was returned.
    pub fn is_dead(&self) -> bool
        ensures { result ≡ self.now.dead }
    {
        self.dead
    }

    /// Puts the next entry, and blocks while the lane is full.
    pub fn put<R: Wait>(&mut self, rt: &R, entry: Entry<A>) -> Result<(), LaneClosed<A>>
        requires { Continues self.old.put entry }
        ensures lane { self.new.lane ≡ self.old.lane }
        ensures ok { OnOk result ((self.new.put ≡ self.old.put ++ Item.Entry entry ∷ []) × (self.new.dead ≡ false)) }
        ensures open { OnOk result (IsOpen self.new.put) }
        ensures next { OnOk result ((f : EntryValue) → Precedes entry f → Continues self.new.put f) }
        ensures err { IfErr result (λ e. (e.entry ≡ Some entry) × (self.new.put ≡ self.old.put)
            × (self.new.dead ≡ true)) }
        ensures dead { self.old.dead ≡ true → IsErr result }
    {
        match self.send(rt, Item::Entry(entry)) {
            Ok(()) => Ok(()),
            Err(Item::Entry(entry)) => Err(LaneClosed { entry: Some(entry) }),
            Err(Item::End) => unreachable!(),
        }
    }

    /// Puts End, and blocks while the lane is full.
    #[tactic(auto, using(crate::proofs::Items::end_chain))]
    pub fn end<R: Wait>(&mut self, rt: &R) -> Result<(), LaneClosed<A>>
        requires { IsOpen self.old.put }
        ensures lane { self.new.lane ≡ self.old.lane }
        ensures ok { OnOk result ((self.new.put ≡ self.old.put ++ Item.End ∷ []) × (self.new.dead ≡ false)) }
        ensures err { IfErr result (λ e. (e.entry ≡ None) × (self.new.put ≡ self.old.put) × (self.new.dead ≡ true)) }
        ensures dead { self.old.dead ≡ true → IsErr result }
    {
        match self.send(rt, Item::End) {
            Ok(()) => Ok(()),
            Err(_) => Err(LaneClosed { entry: None }),
        }
    }

    fn send<R: Wait>(&mut self, rt: &R, item: Item<A>) -> Result<(), Item<A>>
        requires { IsItemChain self.old.put → IsItemChain (self.old.put ++ item ∷ []) }
        ensures lane { self.new.lane ≡ self.old.lane }
        ensures ok { OnOk result ((self.new.put ≡ self.old.put ++ item ∷ []) × (self.new.dead ≡ false)) }
        ensures err { IfErr result (λ back. (back ≡ item) × (self.new.put ≡ self.old.put) × (self.new.dead ≡ true)) }
        ensures dead { self.old.dead ≡ true → IsErr result }
    {
        if self.dead {
            return Err(item);
        }
        let mut item = item;
        let mut looks = 0;
        for _ in rt.forever() {
            if self.is_cut() {
                self.dead = true;
                return Err(item);
            }
            match self.send_ready(item) {
                Ok(()) => return Ok(()),
                Err(back) => item = back,
            }
            if !looks_again(&mut looks) {
                self.sleep(rt);
            }
        }
        unreachable!()
    }

    // Whether the outlet is gone.
    fn is_cut(&mut self) -> bool
        ensures { self.new ≡ self.old }
    {
        self.producer.is_abandoned()
    }

    // Puts the item if there is room, and else returns it.
    fn send_ready(&mut self, item: Item<A>) -> Result<(), Item<A>>
        requires { IsItemChain self.old.put → IsItemChain (self.old.put ++ item ∷ []) }
        ensures ok { OnOk result (self.new ≡ record self.old { put = self.old.put ++ item ∷ [] }) }
        ensures err { IfErr result (λ back. (back ≡ item) × (self.new ≡ self.old)) }
    {
        if let Err(PushError::Full(back)) = self.producer.push(item) {
            return Err(back);
        }
        self.pull.bells.put.ring();
        Ok(())
    }

    // Sleeps while the lane is full, unless the outlet is gone.
    fn sleep<R: Wait>(&mut self, rt: &R)
        ensures { self.new ≡ self.old }
    {
        let heard = self.pull.bells.taken.listen();
        let has_to = self.producer.is_full() && !self.is_cut();
        self.pull.bells.taken.sleep(rt, heard, has_to);
    }
}

impl<A: Allocator> Outlet<A> {
    /// Takes the next item, and blocks while there is none. That an entry continues those taken before follows from
    /// the rule, without a check at run time.
    pub fn take<R: Wait>(&mut self, rt: &R) -> Result<Item<A>, LaneClosed<A>>
        requires { IsOpen self.old.taken }
        ensures lane { self.new.lane ≡ self.old.lane }
        ensures ok { IfOk result (λ x. (self.new.taken ≡ self.old.taken ++ x ∷ []) × (self.new.dead ≡ false)) }
        ensures chain { OnOk result (IsItemChain self.new.taken) }
        ensures continues { IfOk result (λ x. MayCome x self.old.taken) }
        ensures next { IfOk result (λ x. Leaves x self.new.taken) }
        ensures err { IfErr result (λ e. (e.entry ≡ None) × (self.new.taken ≡ self.old.taken)
            × (self.new.dead ≡ true)) }
        ensures dead { self.old.dead ≡ true → IsErr result }
    {
        match self.receive(rt) {
            Some(item) => Ok(item),
            None => Err(LaneClosed { entry: None }),
        }
    }

    /// Takes the next item if one waits on the lane, and never blocks. `None` does not say whether the inlet is gone.
    pub fn take_ready(&mut self) -> Option<Item<A>>
        requires { IsOpen self.old.taken }
        ensures lane { self.new.lane ≡ self.old.lane }
        ensures some { IfSome result (λ x. (self.new.taken ≡ self.old.taken ++ x ∷ []) × (self.new.dead ≡ false)) }
        ensures chain { OnSome result (IsItemChain self.new.taken) }
        ensures continues { IfSome result (λ x. MayCome x self.old.taken) }
        ensures next { IfSome result (λ x. Leaves x self.new.taken) }
        ensures none { IfNone result (self.new ≡ self.old) }
        ensures dead { self.old.dead ≡ true → IsNone result }
    {
        match self.receive_ready() {
            Some(item) => Some(item),
            None => None,
        }
    }

    // `None` once the inlet is gone and no item waits: then this end is dead.
    fn receive<R: Wait>(&mut self, rt: &R) -> Option<Item<A>>
        ensures lane { self.new.lane ≡ self.old.lane }
        ensures some { IfSome result (λ x. (self.new.taken ≡ self.old.taken ++ x ∷ []) × (self.new.dead ≡ false)) }
        ensures chain { IsItemChain self.new.taken }
        ensures none { IfNone result ((self.new.taken ≡ self.old.taken) × (self.new.dead ≡ true)) }
        ensures dead { self.old.dead ≡ true → IsNone result }
    {
        if self.dead {
            return None;
        }
        let mut looks = 0;
        for _ in rt.forever() {
            // Looked at first: what was put before the inlet went is still taken.
            let is_cut = self.is_cut();
            if let Some(item) = self.receive_ready() {
                return Some(item);
            }
            if is_cut {
                self.dead = true;
                return None;
            }
            if !looks_again(&mut looks) {
                self.sleep(rt);
            }
        }
        unreachable!()
    }

    // Sleeps while the lane is empty, unless the inlet is gone.
    fn sleep<R: Wait>(&mut self, rt: &R)
        ensures { self.new ≡ self.old }
    {
        let heard = self.pull.bells.put.listen();
        let has_to = self.consumer.is_empty() && !self.is_cut();
        self.pull.bells.put.sleep(rt, heard, has_to);
    }

    // Whether the inlet is gone.
    fn is_cut(&mut self) -> bool
        ensures { self.new ≡ self.old }
    {
        self.consumer.is_abandoned()
    }

    // `None` if no item waits.
    fn receive_ready(&mut self) -> Option<Item<A>>
        ensures lane { self.new.lane ≡ self.old.lane }
        ensures some { IfSome result (λ x. (self.new.taken ≡ self.old.taken ++ x ∷ []) × (self.new.dead ≡ false)) }
        ensures chain { IsItemChain self.new.taken }
        ensures none { IfNone result (self.new ≡ self.old) }
        ensures dead { self.old.dead ≡ true → IsNone result }
    {
        if self.dead {
            return None;
        }
        let Ok(item) = self.consumer.pop() else {
            return None;
        };
        self.pull.bells.taken.ring();
        Some(item)
    }
}
