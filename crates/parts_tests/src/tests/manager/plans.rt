//! Which peers are asked, and for how much.
use crate::tests::manager::calls::{Step, steps_gone};
use rights_types::{MAX_AMOUNT, Move};
use test_kit::{grant, issue, spend};

/// Both peers are asked for all that they are known to have, and then for no more.
#[test]
fn two_peers_are_asked(rt: HostRuntime) {
    let steps = [
        Step::Applies(1, issue(4), 1),
        Step::Applies(3, issue(4), 1),
        Step::Waits(10, 0, 1),
        Step::Plans(2),
        Step::Asks(1, 1, 4),
        Step::Asks(3, 1, 4),
        Step::AsksNothing(2),
        Step::Plans(0),
    ];
    assert_eq!(rt; steps_gone(rt.alloc(), 2, 3, &steps), steps.len());
}

/// A grant ends the ask that it answers, and no other.
#[test]
fn a_grant_ends_its_ask(rt: HostRuntime) {
    let steps = [
        Step::Applies(1, issue(10), 1),
        Step::Waits(6, 9, 1),
        Step::Plans(1),
        Step::Asks(1, 1, 6),
        Step::Granted(1, 2),
        Step::Asks(1, 1, 6),
        Step::Granted(1, 1),
        Step::AsksNothing(1),
        Step::Applies(1, grant(2, 6, 1), 1),
        Step::Plans(0),
    ];
    assert_eq!(rt; steps_gone(rt.alloc(), 2, 2, &steps), steps.len());
}

/// After a denial the peer is asked again, with the next number. A late denial ends nothing.
#[test]
fn a_denied_peer_is_asked_again(rt: HostRuntime) {
    let steps = [
        Step::Applies(1, issue(10), 1),
        Step::Waits(6, 0, 1),
        Step::Plans(1),
        Step::Denied(1, 1),
        Step::Denied(1, 1),
        Step::AsksNothing(1),
        Step::Plans(1),
        Step::Asks(1, 2, 6),
    ];
    assert_eq!(rt; steps_gone(rt.alloc(), 2, 2, &steps), steps.len());
}

/// No peer is asked that is known to lack rights or to have none.
#[test]
fn no_peer_with_rights(rt: HostRuntime) {
    let steps = [
        Step::Applies(2, spend(6), 1),
        Step::Knows(2, -6),
        Step::Knows(1, 0),
        Step::Waits(1, 0, 1),
        Step::Plans(0),
        Step::AsksNothing(1),
        Step::AsksNothing(2),
    ];
    assert_eq!(rt; steps_gone(rt.alloc(), 3, 3, &steps), steps.len());
}

/// A peer is asked for at most 10^9, and then the next one for what the first is known to leave.
#[test]
fn an_ask_has_a_greatest_amount(rt: HostRuntime) {
    let steps = [
        Step::Applies(1, issue(MAX_AMOUNT), 2),
        Step::Applies(3, issue(MAX_AMOUNT), 3),
        Step::Waits(MAX_AMOUNT, 0, 1),
        Step::Waits(MAX_AMOUNT, 0, 2),
        Step::Waits(MAX_AMOUNT, 0, 3),
        Step::Plans(1),
        Step::Asks(3, 1, MAX_AMOUNT),
        Step::AsksNothing(1),
        Step::Plans(1),
        Step::Asks(1, 1, MAX_AMOUNT),
    ];
    assert_eq!(rt; steps_gone(rt.alloc(), 2, 3, &steps), steps.len());
}

/// A peer that has closed is not asked, and the ask to it ends at the next plan.
#[test]
fn a_closed_peer_is_not_asked(rt: HostRuntime) {
    let steps = [
        Step::Applies(1, issue(8), 1),
        Step::Applies(3, issue(5), 1),
        Step::Waits(4, 0, 1),
        Step::Plans(1),
        Step::Asks(1, 1, 4),
        Step::Applies(1, Move::Close, 1),
        Step::Asks(1, 1, 4),
        Step::Plans(1),
        Step::AsksNothing(1),
        Step::Asks(3, 1, 4),
    ];
    assert_eq!(rt; steps_gone(rt.alloc(), 2, 3, &steps), steps.len());
}

/// Beside a silent peer the other is asked for all that is needed. The ask to the silent one stays outstanding, and
/// counts again once it is heard.
#[test]
fn a_silent_peer_is_passed_over(rt: HostRuntime) {
    let steps = [
        Step::Applies(1, issue(9), 1),
        Step::Applies(3, issue(5), 1),
        Step::Waits(4, 0, 1),
        Step::Plans(1),
        Step::Asks(1, 1, 4),
        Step::PlansBeside(1, 1),
        Step::Asks(1, 1, 4),
        Step::Asks(3, 1, 4),
        Step::PlansBeside(1, 0),
        Step::Plans(0),
        Step::Denied(1, 1),
        Step::Denied(3, 1),
        Step::PlansBeside(1, 1),
        Step::AsksNothing(1),
        Step::Asks(3, 2, 4),
    ];
    assert_eq!(rt; steps_gone(rt.alloc(), 2, 3, &steps), steps.len());
}
