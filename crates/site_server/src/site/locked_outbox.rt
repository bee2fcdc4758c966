//! The outbox of one peer under its lock.
ghost use Rattle.std.specs.Prelude.{◌≡◌};

use rights_types::SiteId;
use site_node::Sink;
use site_sockets::{PeerLines, PeerState};
use std::marker::Model;
use std::sync::Wait;

/// The lines that wait for one peer, under the lock of its outbox.
#[derive(Drop)]
pub(crate) struct LockedOutbox<'a> {
    site: SiteId,
    lines: PeerLines<'a>,
}

impl<'a> Model for LockedOutbox<'a> {
    ghost use Rattle.site_server.specs.Outboxes.{LockedValue};

    ghost Value = { LockedValue };

    ghost view = { λ outbox. record { site = outbox.site; waiting = outbox.lines } };
}

impl<'a> LockedOutbox<'a> {
    /// Waits until no other thread holds that peer's outbox, and holds it until this is dropped.
    pub(crate) fn new<R: Wait>(rt: &R, peer: &'a PeerState) -> LockedOutbox<'a>
        ensures { result.site ≡ peer.now.site }
    {
        LockedOutbox {
            site: peer.site,
            lines: peer.lines(rt),
        }
    }
}

impl Sink for LockedOutbox<'_> {
    ghost use Rattle.site_server.specs.Outboxes.{PutsLine};

    ghost takes = { PutsLine };

    fn offer(&mut self, line: Vec<u8>) -> bool {
        self.lines.put(line)
    }
}
