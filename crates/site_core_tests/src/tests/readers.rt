//! What the readers of a desk report. They take no memory of the desk's.
use crate::tests::calls::{Counted, Put};
use rights_types::{MAX_SITES, SiteId};

const OF_SITE: [&str; 8] = [
    "number", "issued", "spent", "given", "back", "received", "held", "queued",
];

const OF_PEER: [&str; 4] = ["applied", "received", "given", "published"];

/// What they report of the site itself, in the order of these names.
pub(crate) fn site_numbers(desk: &Counted) -> [u64; 8] {
    [
        desk.number(),
        desk.issued(),
        desk.spent(),
        desk.given(),
        desk.taken_back(),
        desk.received(),
        desk.held(),
        desk.queued(),
    ]
}

/// What they report of another site, in the order of these names.
pub(crate) fn peer_numbers(desk: &Counted, peer: SiteId) -> [u64; 4] {
    [
        desk.applied(peer),
        desk.received_from(peer),
        desk.given_to(peer),
        desk.log().cursor(peer) as u64,
    ]
}

fn known(desk: &Counted, peer: SiteId) -> i128 {
    desk.known(peer)
}

pub(crate) fn closed(desk: &Counted, site: SiteId) -> bool {
    desk.closed(site)
}

/// How many entries the log has.
pub(crate) fn entries(desk: &Counted) -> usize {
    desk.log().len()
}

fn put_numbers(text: &mut String, names: &[&str], numbers: &[u64]) -> Put {
    for (name, number) in names.iter().zip(numbers) {
        write!(text, "{name} {number} ")?;
    }
    Ok(())
}

fn state(closed: bool) -> &'static str {
    if closed { "closed" } else { "open" }
}

/// Adds the numbers of the site itself.
pub(crate) fn put_site(text: &mut String, desk: &Counted) -> Put {
    put_numbers(text, &OF_SITE, &site_numbers(desk))?;
    text.push_str(state(closed(desk, desk.site())))
}

/// Adds the numbers of another site.
pub(crate) fn put_peer(text: &mut String, desk: &Counted, peer: SiteId) -> Put {
    put_numbers(text, &OF_PEER, &peer_numbers(desk, peer))?;
    let known = known(desk, peer);
    let state = state(closed(desk, peer));
    write!(text, "known {known} {state}")
}

/// Adds the entry at this place of the log.
pub(crate) fn put_entry(text: &mut String, desk: &Counted, index: usize) -> Put {
    let line = desk.log().line(index).unwrap_or(b"");
    text.push_str(std::str::from_utf8(line).unwrap_or(""))
}

fn put_told(told: &mut Vec<i128>, numbers: &[u64]) -> Put {
    for number in numbers {
        told.push(i128::from(*number))?;
    }
    Ok(())
}

fn put_peer_told(told: &mut Vec<i128>, desk: &Counted, peer: SiteId) -> Put {
    put_told(told, &peer_numbers(desk, peer))?;
    told.push(known(desk, peer))?;
    told.push(i128::from(closed(desk, peer)))?;
    Ok(())
}

fn put_entry_told(told: &mut Vec<i128>, line: &[u8]) -> Put {
    for byte in line {
        told.push(i128::from(*byte))?;
    }
    Ok(())
}

/// Adds everything that the readers of a desk report.
pub(crate) fn put_desk_told(told: &mut Vec<i128>, desk: &Counted) -> Put {
    put_told(told, &site_numbers(desk))?;
    for index in 0..MAX_SITES {
        put_peer_told(told, desk, SiteId::known(index + 1))?;
    }
    for index in 0..entries(desk) {
        put_entry_told(told, desk.log().line(index).unwrap_or(b""))?;
    }
    Ok(())
}
