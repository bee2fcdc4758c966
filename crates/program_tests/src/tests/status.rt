//! The text of the status object.
use apply_lanes::DeskView;
use rights_types::{OutOfMemory, SiteId};
use site_words::{JournalView, PeerView, status};
use std::alloc::{AllocError, Global};

/// The text of the object.
fn text(
    alloc: Global,
    desk: &DeskView,
    peers: &[PeerView],
    journal: Option<JournalView>,
    keys: u64,
) -> Result<String, OutOfMemory> {
    Ok(status(alloc, desk, peers, journal, keys)?.to_string(alloc)?)
}

/// Whether this is the text of the object.
fn is_text(
    alloc: Global,
    desk: &DeskView,
    peers: &[PeerView],
    journal: Option<JournalView>,
    keys: u64,
    wanted: &str,
) -> bool {
    match text(alloc, desk, peers, journal, keys) {
        Ok(text) => text.as_str() == wanted,
        Err(_) => false,
    }
}

/// Site 1 has issued 10, spent 4 and given site 2 three.
#[test]
fn the_text_is_compact(rt: HostRuntime) {
    let desk = DeskView {
        site: SiteId::known(1),
        closed: false,
        number: 3,
        issued: 10,
        spent: 4,
        given: 3,
        back: 0,
        received: 0,
        held: 3,
        queued: 0,
    };
    let peers = [PeerView {
        site: SiteId::known(2),
        applied: 0,
        buffering: false,
        held: 0,
    }];
    let wanted =
        r#"{"closed":false,"held":3,"issued":10,"number":3,"peers":[{"applied":0,"buffering":false,"held":0,"site":2}],"queued":0,"received":0,"site":1,"spent":4}"#;
    assert!(rt; is_text(rt.alloc(), &desk, &peers, None, 0, wanted));
}

/// Whether the list of no peers is empty.
fn has_no_peers(alloc: Global, desk: &DeskView) -> bool {
    match text(alloc, desk, &[], None, 0) {
        Ok(text) => text.as_str().contains(r#""peers":[],"#),
        Err(_) => false,
    }
}

/// Whether the number of keys is shown without a journal too.
fn has_keys_without_journal(alloc: Global, desk: &DeskView) -> bool {
    match text(alloc, desk, &[], None, 1) {
        Ok(text) => text.as_str().contains(r#""issued":11,"keys":1,"number":"#),
        Err(_) => false,
    }
}

/// Each value is shown with its key, and the peers in the order given.
#[test]
fn each_value_is_at_its_key(rt: HostRuntime) {
    let desk = DeskView {
        site: SiteId::known(3),
        closed: true,
        number: 1_000_000_000,
        issued: 11,
        spent: 12,
        given: 13,
        back: 14,
        received: 15,
        held: u64::MAX,
        queued: 17,
    };
    let peers = [
        PeerView {
            site: SiteId::known(16),
            applied: 21,
            buffering: true,
            held: 64,
        },
        PeerView {
            site: SiteId::known(1),
            applied: 23,
            buffering: false,
            held: 24,
        },
    ];
    let journal = JournalView {
        bytes: 26,
        records: 28,
        durable: 27,
        synced: 29,
    };
    let wanted =
        r#"{"closed":true,"held":18446744073709551615,"issued":11,"journal":{"bytes":26,"durable":27,"records":28,"synced":29},"keys":25,"number":1000000000,"peers":[{"applied":21,"buffering":true,"held":64,"site":16},{"applied":23,"buffering":false,"held":24,"site":1}],"queued":17,"received":15,"site":3,"spent":12}"#;
    assert!(rt; is_text(rt.alloc(), &desk, &peers, Some(journal), 25, wanted));
    assert!(rt; has_keys_without_journal(rt.alloc(), &desk));
    assert!(rt; has_no_peers(rt.alloc(), &desk));
}

/// The first sites of fifteen, each of which has applied as many as its own number.
fn first_peers(alloc: Global, count: u64) -> Result<Vec<PeerView>, AllocError> {
    let mut peers = Vec::new(alloc);
    for site in 1..=15u64 {
        if site <= count {
            peers.push(PeerView {
                site: SiteId::known(site),
                applied: site,
                buffering: false,
                held: 9,
            })?;
        }
    }
    Ok(peers)
}

/// The text of a site with them as its peers.
fn text_with_first_peers(alloc: Global, count: u64) -> Result<String, AllocError> {
    let start = r#"{"closed":false,"held":7,"issued":2,"number":1,"peers":["#;
    let mut text = String::from_str(alloc, start)?;
    for site in 1..=count {
        let comma = if site > 1 { "," } else { "" };
        let peer = format!(in alloc;
            r#"{comma}{{"applied":{site},"buffering":false,"held":9,"site":{site}}}"#
        )?;
        text.push_str(peer.as_str())?;
    }
    text.push_str(r#"],"queued":8,"received":6,"site":16,"spent":3}"#)?;
    Ok(text)
}

/// Whether each of this number of peers is in the list.
fn lists_peers(alloc: Global, desk: &DeskView, count: u64) -> bool {
    match (
        first_peers(alloc, count),
        text_with_first_peers(alloc, count),
    ) {
        (Ok(peers), Ok(wanted)) => {
            is_text(alloc, desk, peers.as_slice(), None, 0, wanted.as_str())
        }
        _ => false,
    }
}

/// The same holds for each number of peers that a system can have.
#[test]
fn each_peer_is_in_the_list(rt: HostRuntime) {
    let desk = DeskView {
        site: SiteId::known(16),
        closed: false,
        number: 1,
        issued: 2,
        spent: 3,
        given: 4,
        back: 5,
        received: 6,
        held: 7,
        queued: 8,
    };
    for count in 1..=15u64 {
        assert!(rt; lists_peers(rt.alloc(), &desk, count), "with {count} peers");
    }
}
