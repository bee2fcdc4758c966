//! The status of a site as a JSON object.
ghost use Rattle.std.specs.Prelude.{◌≡◌, IfOk, OnOk, None, map};
ghost use Rattle.serde_json.specs.Data.{array, object, put as with_member};
ghost use Rattle.serde_json.specs.View.{items_of, members_view, view};
ghost use Rattle.site_words.specs.Status.{journal_data, peer_data, rights_data, status_data, status_text, whole};
ghost use Rattle.std.specs.String.{string_bytes};

use rights_types::{OutOfMemory, SiteId};
use serde_json::{Map, Value, json, put};
use std::alloc::Global;
use thread_parts::DeskView;

/// What a site reports about one peer.
#[derive(Clone, Copy, Debug, PartialEq, Eq)]
pub struct PeerView {
    pub site: SiteId,
    /// The own number of the last entry of the peer's log that was applied here; 0 if there is none.
    pub applied: u64,
    /// Whether entries of the peer are known to be missing.
    pub buffering: bool,
    /// How many entries of the peer are held until those arrive, at most 64.
    pub held: usize,
}

/// What a site reports about its journal.
#[derive(Clone, Copy, Debug, PartialEq, Eq)]
pub struct JournalView {
    /// The bytes of the file up to the last sync.
    pub bytes: u64,
    /// The records that were made for it, those of earlier processes among them.
    pub records: u64,
    /// How many of them are durable.
    pub durable: u64,
    /// When the last sync was, in milliseconds since 1970.
    pub synced: u64,
}

/// The status of a journal.
fn journal_status(alloc: Global, journal: JournalView) -> Result<Value, OutOfMemory>
    ensures { IfOk result (λ value. view value ≡ journal_data journal) }
{
    Ok(json!(in alloc; {
        "bytes": journal.bytes,
        "durable": journal.durable,
        "records": journal.records,
        "synced": journal.synced,
    })?)
}

/// The status of one peer.
fn peer_status(alloc: Global, peer: &PeerView) -> Result<Value, OutOfMemory>
    ensures { IfOk result (λ value. view value ≡ peer_data peer.now) }
{
    Ok(json!(in alloc; {
        "applied": peer.applied,
        "buffering": peer.buffering,
        "held": peer.held,
        "site": peer.site.number(),
    })?)
}

/// The list of the peers' statuses.
fn peer_list(alloc: Global, peers: &[PeerView]) -> Result<Value, OutOfMemory>
    ensures { IfOk result (λ value. view value ≡ array (items_of (map peer_data peers.now))) }
{
    let mut list = Vec::new(alloc);
    for peer in peers {
        list.push(peer_status(alloc, peer)?)?;
    }
    Ok(Value::Array(list))
}

/// Adds a member with a number to an object.
fn put_number(
    members: &mut Map<String, Value>,
    alloc: Global,
    key: &str,
    number: u64,
) -> Result<(), OutOfMemory>
    ensures { OnOk result (members_view members.new.entries
        ≡ with_member key.now (whole number) (members_view members.old.entries)) }
{
    Ok(put(members, alloc, key, Value::from(number))?)
}

/// The members with the rights of a site.
fn rights(alloc: Global, desk: &DeskView) -> Result<Map<String, Value>, OutOfMemory>
    ensures { IfOk result (λ members. members_view members.entries ≡ rights_data desk.now) }
{
    let mut members = Map::new(alloc);
    put_number(&mut members, alloc, "held", desk.held)?;
    put_number(&mut members, alloc, "issued", desk.issued)?;
    put_number(&mut members, alloc, "queued", desk.queued)?;
    put_number(&mut members, alloc, "received", desk.received)?;
    put_number(&mut members, alloc, "spent", desk.spent)?;
    Ok(members)
}

/// The members of the status object of a site that keeps no journal and remembers no key.
fn members_of(
    alloc: Global,
    desk: &DeskView,
    peers: &[PeerView],
) -> Result<Map<String, Value>, OutOfMemory>
    ensures { IfOk result (λ members. object (members_view members.entries) ≡ status_data desk.now peers.now None 0) }
{
    let mut members = rights(alloc, desk)?;
    put_number(&mut members, alloc, "number", desk.number)?;
    put_number(&mut members, alloc, "site", desk.site.number())?;
    put(&mut members, alloc, "closed", Value::from(desk.closed))?;
    put(&mut members, alloc, "peers", peer_list(alloc, peers)?)?;
    Ok(members)
}

/// The status object of a site, with its peers in the given order, with its journal if it keeps one, and with the number
/// of `keys` of commands that it remembers unless that is 0. Its members are in alphabetical order. `OutOfMemory` if
/// memory for it is refused.
pub fn status(
    alloc: Global,
    desk: &DeskView,
    peers: &[PeerView],
    journal: Option<JournalView>,
    keys: u64,
) -> Result<Value, OutOfMemory>
    ensures { IfOk result (λ value. view value ≡ status_data desk.now peers.now journal keys) }
{
    let mut members = members_of(alloc, desk, peers)?;
    if keys > 0 {
        put_number(&mut members, alloc, "keys", keys)?;
    }
    match journal {
        Some(journal) => {
            let journal = journal_status(alloc, journal)?;
            put(&mut members, alloc, "journal", journal)?;
            Ok(Value::Object(members))
        }
        None => Ok(Value::Object(members)),
    }
}

/// The text of the status object: one line, with no space in it. `OutOfMemory` if memory for it is refused.
pub fn status_text(
    alloc: Global,
    desk: &DeskView,
    peers: &[PeerView],
    journal: Option<JournalView>,
    keys: u64,
) -> Result<String, OutOfMemory>
    ensures { IfOk result (λ text. string_bytes text ≡ status_text desk.now peers.now journal keys) }
{
    Ok(status(alloc, desk, peers, journal, keys)?.to_string(alloc)?)
}
