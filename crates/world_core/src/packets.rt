//! Lines that were sent.
ghost use Rattle.std.specs.Prelude.{◌≡◌, ◌+◌, ◌<◌, ◌∷◌, [], ◌++◌, get_or, length, OnOk};
ghost use Rattle.world_core.specs.Values.{PacketValue};
ghost use Rattle.world_core.specs.Values.BodyValue.{EntryAt, Text};
ghost use Rattle.world_core.specs.Bodies.{body_of};

use rights_types::{OutOfMemory, SiteId};
use site_core::Line;
use std::alloc::Allocator;
use std::marker::Model;

/// The content of a packet, borrowed. The line of an entry never changes, so its position in the log stands for it.
#[derive(Clone, Copy)]
pub(crate) enum Body<'a> {
    /// The entry at this index of its sender's log.
    Entry(usize),
    /// A line of its own.
    Own(&'a [u8]),
}

/// A line that one site sent to another, borrowed.
#[derive(Drop)]
pub(crate) struct Packet<'a> {
    from: SiteId,
    to: SiteId,
    body: Body<'a>,
}

impl<'a> Model for Packet<'a> {
    ghost use Rattle.world_core.specs.Values.{PacketValue};
    ghost use Rattle.world_core.specs.Bodies.{body_of};

    ghost Value = { PacketValue };

    ghost view = { λ p. record { from = p.from; to = p.to; body = body_of p.body } };
}

impl<'a> Packet<'a> {
    pub(crate) fn from(&self) -> SiteId
        ensures { result ≡ self.now.from }
    {
        self.from
    }

    pub(crate) fn to(&self) -> SiteId
        ensures { result ≡ self.now.to }
    {
        self.to
    }

    pub(crate) fn body(&self) -> Body<'a>
        ensures { body_of result ≡ self.now.body }
    {
        self.body
    }
}

/// The sender and the receiver of a packet, and the index of its content: among the entries of its sender's log, or
/// among the lines that belong to packets.
#[derive(Clone, Copy)]
struct Row {
    place: usize,
    from: SiteId,
    to: SiteId,
    is_entry: bool,
}

/// All packets, which are kept forever, whether they arrive or not. Most of them carry entries, and take only a row.
#[derive(Drop)]
pub(crate) struct Packets<A: Allocator> {
    rows: Vec<Row, A>,
    lines: Vec<Line<A>, A>,
}

impl<A: Allocator> Model for Packets<A> {
    ghost use Rattle.std.specs.Prelude.{◌-◌, length, vec_capacity};
    ghost use Rattle.std.specs.List.{All};
    ghost use Rattle.world_core.specs.Packets.{PacketsValue, packets_in, HasLine};

    ghost Value = { PacketsValue };

    ghost view = { λ p. record {
      items = packets_in p.lines.items p.rows.items;
      room = vec_capacity p.rows - length p.rows.items;
      lines = vec_capacity p.lines - length p.lines.items;
    } };

    ghost invariant = { λ p. All (HasLine p.lines.items) p.rows.items };
}

impl<A: Allocator + Copy> Packets<A> {
    pub(crate) fn new(alloc: A) -> Packets<A>
        ensures { result.items ≡ [] }
    {
        Packets {
            rows: Vec::new(alloc),
            lines: Vec::new(alloc),
        }
    }

    /// Reserves memory for a packet that carries an entry.
    pub(crate) fn reserve_entry(&mut self) -> Result<(), OutOfMemory>
        ensures items { self.new.items ≡ self.old.items }
        ensures ok { OnOk result (0 < self.new.room) }
    {
        self.rows.reserve(1)?;
        Ok(())
    }

    /// Reserves memory for a packet with a line of its own.
    pub(crate) fn reserve_line(&mut self) -> Result<(), OutOfMemory>
        ensures items { self.new.items ≡ self.old.items }
        ensures ok { OnOk result ((0 < self.new.room) × (0 < self.new.lines)) }
    {
        self.rows.reserve(1)?;
        self.lines.reserve(1)?;
        Ok(())
    }

    /// Adds a packet with the entry at this index of the sender's log, for which memory was reserved, and returns its
    /// number.
    pub(crate) fn add_entry(&mut self, from: SiteId, to: SiteId, place: usize) -> u64
        requires room { 0 < self.old.room }
        ensures number { result ≡ length self.old.items + 1 }
        ensures added { self.new.items ≡ self.old.items ++ record { from = from; to = to; body = EntryAt place } ∷ [] }
    {
        self.rows.push_reserved(Row {
            place,
            from,
            to,
            is_entry: true,
        });
        self.rows.len() as u64
    }

    /// Adds a packet with this line, for which memory was reserved, and returns its number.
    pub(crate) fn add_line(&mut self, from: SiteId, to: SiteId, line: Line<A>) -> u64
        requires room { (0 < self.old.room) × (0 < self.old.lines) }
        ensures number { result ≡ length self.old.items + 1 }
        ensures added { self.new.items ≡ self.old.items ++ record { from = from; to = to; body = Text line } ∷ [] }
    {
        let place = self.lines.len();
        self.lines.push_reserved(line);
        self.rows.push_reserved(Row {
            place,
            from,
            to,
            is_entry: false,
        });
        self.rows.len() as u64
    }
}

impl<A: Allocator> Packets<A> {
    pub(crate) fn len(&self) -> usize
        ensures { result ≡ length self.now.items }
    {
        self.rows.len()
    }

    /// The packet at an index, from 0.
    pub(crate) fn at(&self, index: usize) -> Packet<'_>
        requires { index < length self.now.items }
        ensures { result ≡ get_or self.now.items index result }
    {
        let row = self.rows[index];
        let body = if row.is_entry {
            Body::Entry(row.place)
        } else {
            Body::Own(self.lines[row.place].bytes())
        };
        Packet {
            from: row.from,
            to: row.to,
            body,
        }
    }
}
