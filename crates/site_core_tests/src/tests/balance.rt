//! Whether rights are conserved: those of each site, and those of all.
use crate::tests::calls::Counted;
use crate::tests::readers::{closed, peer_numbers, site_numbers};
use rights_types::SiteId;

/// Sums over all sites.
#[derive(Clone, Copy)]
pub(crate) struct Totals {
    pub(crate) issued: u64,
    pub(crate) spent: u64,
    pub(crate) held: u64,
    /// What was given, and neither received nor taken back.
    pub(crate) way: u64,
    pub(crate) back: u64,
    pub(crate) received: u64,
}

impl Totals {
    /// The sums, if each site's rights are those of its log and of what it applied, each gift is received at most
    /// once, and what is taken back is what sites that are known to be closed did not receive.
    pub(crate) fn of(desks: &[Counted]) -> Option<Totals> {
        let mut totals = Totals {
            issued: 0,
            spent: 0,
            held: 0,
            way: 0,
            back: 0,
            received: 0,
        };
        for desk in desks {
            totals.add_site(desks, desk)?;
        }
        Some(totals)
    }

    // No sum of a test comes close to the greatest number.
    fn add_site(&mut self, desks: &[Counted], desk: &Counted) -> Option<()> {
        let [_, issued, spent, given, back, received, held, _] = site_numbers(desk);
        let gained = issued.saturating_add(received).saturating_add(back);
        let (way, lost) = on_the_way(desks, desk)?;
        if gained.checked_sub(given.saturating_add(spent)) != Some(held) || lost != back {
            return None;
        }
        self.issued = self.issued.saturating_add(issued);
        self.spent = self.spent.saturating_add(spent);
        self.held = self.held.saturating_add(held);
        self.way = self.way.saturating_add(way);
        self.back = self.back.saturating_add(back);
        self.received = self.received.saturating_add(received);
        Some(())
    }

    /// Whether nothing was lost or created in transit.
    pub(crate) fn are_even(self) -> bool {
        self.held
            .saturating_add(self.spent)
            .saturating_add(self.way)
            == self.issued
    }
}

// What the site gave to others that did not receive it: to those that it knows as open, and to those that it
// knows as closed.
fn on_the_way(desks: &[Counted], desk: &Counted) -> Option<(u64, u64)> {
    let me = desk.site();
    let (mut way, mut lost) = (0u64, 0u64);
    for (index, other) in desks.iter().enumerate() {
        let peer = SiteId::new(index.saturating_add(1) as u64).ok()?;
        let [_, _, given, _] = peer_numbers(desk, peer);
        let [_, received, _, _] = peer_numbers(other, me);
        let left = given.checked_sub(received)?;
        if closed(desk, peer) {
            lost = lost.saturating_add(left);
        } else {
            way = way.saturating_add(left);
        }
    }
    Some((way, lost))
}
