//! Each two sites of worlds of 2 to 16: entries, beats, queries, answers, asks and denials. A body that gives up for
//! one of them can be proved, since it may always run out of memory; it is found here.
use crate::tests::is_replied;
use std::alloc::{AllocError, Global};
use std::test::Fail;

/// A script, its replies, and how many packets it made.
#[derive(Drop)]
struct Lines {
    script: String,
    replies: String,
    packets: u64,
}

/// A site issues 5.
fn put_issue(lines: &mut Lines, site: u64) -> Result<(), AllocError> {
    write!(lines.script, "issue {site} 5\n")?;
    lines.replies.push_str("number 1\n")
}

/// The site sends the peer a beat for its entry, gets a query for it, and sends it twice. The peer applies it.
fn put_entry(lines: &mut Lines, site: u64, peer: u64) -> Result<(), AllocError> {
    if site == peer {
        return Ok(());
    }
    let beat = lines.packets.saturating_add(1);
    let query = lines.packets.saturating_add(2);
    let answer = lines.packets.saturating_add(3);
    let entry = lines.packets.saturating_add(4);
    lines.packets = entry;
    write!(
        lines.script,
        "\
beat {site} {peer}\narrive {peer} {beat}\nquery {peer} {site}\narrive {site} {query}\narrive {peer} {answer}
take {peer} {site}\npublish {site} {peer}\narrive {peer} {entry}\n"
    )?;
    write!(
        lines.replies,
        "\
packet {beat} B {site} 1\nbeat\npacket {query} Q {peer} {site} 1 1\npacket {answer} A {site} {peer};E {site} 0 1 I:5
ready 1\ntaken 1\npacket {entry} E {site} 0 1 I:5\nrepeat\n"
    )
}

/// The site waits for all rights of all sites.
fn put_spend(lines: &mut Lines, site: u64, sites: u64) -> Result<(), AllocError> {
    let all = sites.saturating_mul(5);
    let asks = sites.saturating_sub(1);
    write!(lines.script, "spend {site} {all} 9\nplan {site}\n")?;
    write!(lines.replies, "queued 1\nasks {asks}\n")
}

/// The site asks the peer, which denies.
fn put_ask(lines: &mut Lines, site: u64, peer: u64) -> Result<(), AllocError> {
    if site == peer {
        return Ok(());
    }
    let ask = lines.packets.saturating_add(1);
    let denial = lines.packets.saturating_add(2);
    lines.packets = denial;
    write!(
        lines.script,
        "ask {site} {peer}\narrive {peer} {ask}\narrive {site} {denial}\nask {site} {peer}\n"
    )?;
    write!(
        lines.replies,
        "packet {ask} W {site} {peer} 1 5\ndenied packet {denial} D {peer} {site} 1\nnoted\nnothing\n"
    )
}

/// What happens from the site to each peer.
fn put_entries(lines: &mut Lines, site: u64, sites: u64) -> Result<(), AllocError> {
    for peer in 1..=sites {
        put_entry(lines, site, peer)?;
    }
    Ok(())
}

fn put_asks(lines: &mut Lines, site: u64, sites: u64) -> Result<(), AllocError> {
    for peer in 1..=sites {
        put_ask(lines, site, peer)?;
    }
    Ok(())
}

/// What happens between each two of this number of sites.
fn lines_of(alloc: Global, sites: u64) -> Result<Lines, AllocError> {
    let mut lines = Lines {
        script: format!(in alloc; "sites {sites}\n")?,
        replies: String::from_str(alloc, "ok\n")?,
        packets: 0,
    };
    for site in 1..=sites {
        put_issue(&mut lines, site)?;
        put_entries(&mut lines, site, sites)?;
    }
    for site in 1..=sites {
        put_spend(&mut lines, site, sites)?;
    }
    for site in 1..=sites {
        put_asks(&mut lines, site, sites)?;
    }
    Ok(lines)
}

#[test]
fn lines_of_any_two_sites(rt: HostRuntime) -> Result<(), Fail> {
    for sites in 2..=16u64 {
        let lines = lines_of(rt.alloc(), sites)?;
        assert!(rt;
            is_replied(
                rt.alloc(),
                lines.script.as_bytes(),
                lines.replies.as_bytes()
            ),
            "{sites} sites"
        );
    }
    Ok(())
}
