//! Desks and what is measured on them. The desk is that of site 1 of 2.

use origin_log::OriginLog;
use rights_types::{Amount, Ask, AskNumber, Entry, Frontier, MAX_AMOUNT, Move, SiteId};
use site_core::{Desk, Spending};
use std::alloc::Global;

fn amount(number: u64) -> Option<Amount> {
    Amount::new(number).ok()
}

/// A desk that holds 10^9 rights.
pub(crate) fn opened(alloc: Global) -> Option<Desk> {
    let mut desk = Desk::new(alloc, SiteId::known(1), 2).ok()?;
    desk.issue(MAX_AMOUNT).ok()?;
    Some(desk)
}

fn append(log: &mut OriginLog, amount: Amount) -> Option<()> {
    log.append_slice(&[Move::Spend(amount)]).ok()?;
    Some(())
}

/// Appends entries of one spend.
pub(crate) fn append_all(log: &mut OriginLog, count: u64) -> Option<()> {
    let amount = amount(1)?;
    for _ in 0..count {
        append(log, amount)?;
    }
    Some(())
}

fn spend(desk: &mut Desk) -> Option<()> {
    match desk.spend(1, 0) {
        Ok(Spending::Spent(_)) => Some(()),
        _ => None,
    }
}

/// Spends one right at a time.
pub(crate) fn spend_all(desk: &mut Desk, count: u64) -> Option<()> {
    for _ in 0..count {
        spend(desk)?;
    }
    Some(())
}

fn give(desk: &mut Desk) -> Option<()> {
    desk.give_back(SiteId::known(2), 1).ok()?;
    Some(())
}

/// Gives one right at a time to site 2.
pub(crate) fn give_all(desk: &mut Desk, count: u64) -> Option<()> {
    for _ in 0..count {
        give(desk)?;
    }
    Some(())
}

fn grant(desk: &mut Desk, number: u64) -> Option<()> {
    let (Ok(number), Ok(amount)) = (AskNumber::new(number), Amount::new(1)) else {
        return None;
    };
    let ask = Ask::known(SiteId::known(2), SiteId::known(1), number, amount);
    if desk.site() != ask.asked() || ask.asker().number() > desk.sites() {
        return None;
    }
    match desk.on_ask(&ask) {
        Ok(reply) if reply.number.is_some() => Some(()),
        _ => None,
    }
}

/// Grants asks of site 2 for one right each.
pub(crate) fn grant_all(desk: &mut Desk, count: u64) -> Option<()> {
    for index in 0..count {
        grant(desk, index.saturating_add(1))?;
    }
    Some(())
}

fn entry(alloc: Global, prev: u64, m: Move) -> Option<Entry> {
    let moves = Vec::from_slice(alloc, &[m]).ok()?;
    Entry::new(SiteId::known(2), prev, moves).ok()
}

/// Entries of site 2 that give one right each to site 1.
pub(crate) fn gifts(alloc: Global, count: u64) -> Option<Vec<Entry>> {
    let mut entries = Vec::new(alloc);
    let gift = Move::Give {
        peer: SiteId::known(1),
        amount: amount(1)?,
    };
    for prev in 0..count {
        entries.push(entry(alloc, prev, gift)?).ok()?;
    }
    Some(entries)
}

/// The closing entry of site 2, which had applied site 1's entries up to this number.
pub(crate) fn closing(alloc: Global, number: u64) -> Option<Vec<Entry>> {
    let frontier = Frontier::new(&[number, 0]).ok()?;
    let mut entries = Vec::new(alloc);
    entries
        .push(entry(alloc, 0, Move::CloseAt(frontier))?)
        .ok()?;
    Some(entries)
}

fn apply(desk: &mut Desk, entry: &Entry) -> Option<()> {
    let origin = SiteId::known(2);
    let is_next = entry.prev() == desk.applied(origin) && !desk.closed(origin);
    if !is_next || origin == desk.site() || origin.number() > desk.sites() || desk.log().closed() {
        return None;
    }
    desk.apply(origin, entry).ok()?;
    Some(())
}

/// Applies the entries of site 2, in order.
pub(crate) fn apply_all(desk: &mut Desk, entries: &[Entry]) -> Option<()> {
    for entry in entries {
        apply(desk, entry)?;
    }
    Some(())
}
