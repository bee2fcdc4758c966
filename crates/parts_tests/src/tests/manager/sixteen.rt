//! The order of fifteen peers.
ghost use Rattle.std.specs.Prelude.{◌≤◌};

use crate::tests::manager::calls::Planner;
use rights_types::{Amount, Move};
use std::alloc::Global;

/// A peer, and how many rights it is asked for.
type Asked = (u64, u64);

// Whether these numbers of rights of the sixteen sites are applied, except for the planner's own.
fn applies_all(planner: &mut Planner, alloc: Global, me: u64, rights: &[u64; 16]) -> bool {
    for (index, issued) in rights.iter().enumerate() {
        let Ok(amount) = Amount::new(*issued) else {
            return false;
        };
        let peer = index as u64 + 1;
        if planner.applies(alloc, peer, Move::Issue(amount), 1) != (peer != me) {
            return false;
        }
    }
    true
}

// Whether these peers were asked, each with its first ask, and no others.
fn asks_only(planner: &Planner, asked: &[Asked; 3]) -> bool {
    (1..=16u64).all(|peer| match asked.iter().find(|one| one.0 == peer) {
        Some((_, amount)) => planner.asks(peer, 1, *amount),
        None => planner.asks_nothing(peer),
    })
}

// Whether a site that lacks this number of rights, and knows of these at the sixteen sites, asks those peers and no
// more.
fn asks(alloc: Global, me: u64, rights: &[u64; 16], lacking: u64, asked: &[Asked; 3]) -> bool
    requires { (1 ≤ me) × (me ≤ 16) }
{
    let Some(mut planner) = Planner::new(alloc, me, 16) else {
        return false;
    };
    applies_all(&mut planner, alloc, me, rights)
        && planner.waits(lacking, 0, 1)
        && planner.plans(3)
        && asks_only(&planner, asked)
        && planner.plans(0)
}

/// Of peers that are known to have equal amounts, those with smaller numbers are asked first.
#[test]
fn equal_peers_by_number(rt: HostRuntime) {
    let asked = [(1, 5), (3, 5), (4, 2)];
    assert!(rt; asks(rt.alloc(), 2, &[5; 16], 12, &asked));
}

/// Of peers that are known to have different amounts, those with more are asked first.
#[test]
fn unequal_peers_by_rights(rt: HostRuntime) {
    let rights = [1, 2, 3, 4, 5, 6, 7, 8, 9, 10, 11, 12, 13, 14, 15, 16];
    let asked = [(16, 16), (14, 14), (13, 10)];
    assert!(rt; asks(rt.alloc(), 15, &rights, 40, &asked));
}
