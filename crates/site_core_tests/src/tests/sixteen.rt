//! Sixteen sites that close one after another.
use crate::tests::sites::Sites;
use refusing_allocator::Refusing;
use std::alloc::AllocGlobal;
use std::process::Abort;

// Each site issues rights, spends one and gives some to each other site. Some of these gifts arrive.
fn give_all_round(rt: &(impl Abort + AllocGlobal), sites: &mut Sites) {
    for site in 1..=16u64 {
        sites.call(rt, "post $1 I:1000 S:1", &[site]);
        for peer in 1..=16u64 {
            let amount = site.saturating_add(peer);
            sites.call(rt, "give $1 $2 $3", &[site, peer, amount]);
        }
    }
    for site in 1..=16u64 {
        for origin in 1..=16u64 {
            if site != origin && site.saturating_add(origin) % 3 != 0 {
                sites.catch_up(rt, site, origin);
            }
        }
    }
}

// The site closes, and every other one applies its whole log, if it is not closed itself.
fn retire(rt: &(impl Abort + AllocGlobal), sites: &mut Sites, site: u64) {
    let heir = site.saturating_add(1);
    let command = if site % 2 == 1 {
        "close $1 $2"
    } else {
        "close $1"
    };
    sites.call(rt, command, &[site, heir]);
    assert!(rt; sites.reply().starts_with("number "), "site {site}");
    for _ in 0..4u8 {
        for other in 1..=16u64 {
            if other != site {
                sites.catch_up(rt, other, site);
            }
        }
    }
}

// Whether the rights are those issued at the start. Each gift to a site that closes arrived before, or is
// taken back.
fn are_kept(sites: &Sites) -> bool {
    match sites.totals() {
        Some(totals) => {
            totals.are_even() && (totals.issued, totals.spent) == (16_000, 16) && totals.back > 0
        }
        None => false,
    }
}

/// Each gives what it holds to the next one, or keeps it, and the others take back what it did not receive.
/// At each moment rights held, spent and in transit are those issued.
#[test]
fn sixteen_sites_close_in_turn(rt: HostRuntime) {
    let memory = Refusing::new(rt.alloc(), u64::MAX);
    let mut sites = Sites::new(&rt, &memory, 16);
    give_all_round(&rt, &mut sites);
    for site in 1..=16u64 {
        retire(&rt, &mut sites, site);
        assert!(rt; are_kept(&sites), "site {site}");
    }
    let totals = sites.totals().expect(&rt, "kept rights");
    assert!(rt; (totals.held, totals.way) == (15_984, 0));
}
