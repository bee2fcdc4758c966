//! What counters count.
use refusals::{Answered, Refusal};
use site_metrics::{Counters, PeerCounters, WRITERS, unsent_numbers};

const ANSWERS: [Answered; 6] = [
    Answered::Done,
    Answered::Refused(Refusal::Short),
    Answered::Done,
    Answered::Refused(Refusal::BadCommand),
    Answered::Refused(Refusal::Short),
    Answered::Refused(Refusal::Closed),
];

/// Answers add up, those of all writers. A writer that there is not counts no commands.
#[test]
fn answers_add_up(rt: HostRuntime) {
    let counters = Counters::new();
    note_all(&counters);
    counters.note_answer(WRITERS - 1, Answered::Done);
    counters.note_answer(WRITERS - 1, Answered::Done);
    counters.note_answer(WRITERS, Answered::Done);
    counters.note_refused(Refusal::OwnClock);
    assert!(rt; counters.commands() == 8);
    assert!(rt; counters.refused() == [1, 0, 0, 0, 0, 0, 0, 0, 2, 0, 0, 0, 0, 0, 1, 0, 1, 0, 0, 0]);
}

fn note_all(counters: &Counters) {
    for answered in ANSWERS {
        counters.note_answer(0, answered);
    }
}

/// Each note goes to its counter.
#[test]
fn peers_are_counted(rt: HostRuntime) {
    let peer = PeerCounters::new();
    peer.note_lines(5, 2);
    peer.note_lines(1, 0);
    peer.note_dropped(7);
    peer.note_went_back();
    peer.set_sending(true);
    assert!(rt; peer.lines() == 6 && peer.refused() == 2);
    assert!(rt; peer.dropped() == 7 && peer.went_back() == 1);
    assert!(rt; peer.is_sending() && !peer.is_receiving());
}

/// How far the log was sent is where it ended when the lines that were written last were made.
#[test]
fn what_is_written_was_sent(rt: HostRuntime) {
    let peer = PeerCounters::new();
    peer.note_offered(4);
    assert!(rt; peer.sent() == 0);
    peer.note_sent();
    peer.note_offered(9);
    assert!(rt; peer.sent() == 4);
    peer.note_sent();
    assert!(rt; peer.sent() == 9);
}

/// For logs that end at 9 and at 0.
#[test]
fn numbers_that_no_peer_was_sent(rt: HostRuntime) {
    assert!(rt; unsent_numbers(9, &[]) == Some((1, 9)));
    assert!(rt; unsent_numbers(9, &[4, 7, 0]) == Some((8, 9)));
    assert!(rt; unsent_numbers(9, &[3, 9]) == None);
    assert!(rt; unsent_numbers(0, &[0, 0]) == None);
}
