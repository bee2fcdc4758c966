//! Verdicts, gaps and what a buffer delivers.
use crate::tests::buffer::steps::{Step, first_wrong, goes};
use std::test::Fail;
use sub_buffer::State;

const FULL_AT_64: [Step; 10] = [
    Step::OfferEach(1, 64, "held"),
    Step::Numbers {
        last: 0,
        told: 65,
        held: 64,
    },
    Step::Offer(65, 1, "full"),
    Step::Numbers {
        last: 0,
        told: 66,
        held: 64,
    },
    Step::Want(Some((1, 1))),
    Step::Offer(0, 1, "ready"),
    Step::Pop(1, 64),
    Step::Numbers {
        last: 65,
        told: 66,
        held: 0,
    },
    Step::Is(State::Buffering),
    Step::Want(Some((66, 66))),
];

/// Sixty-four entries are held, one more is not.
#[test]
fn full_at_64(rt: HostRuntime) {
    goes(&rt, &FULL_AT_64);
}

const CLOSED: [Step; 8] = [
    Step::OfferClosing(0, "ready"),
    Step::Offer(1, 1, "after close"),
    Step::OfferClosing(0, "repeat"),
    Step::Beat(9),
    Step::Numbers {
        last: 1,
        told: 1,
        held: 0,
    },
    Step::Is(State::Normal),
    Step::Gap(None),
    Step::OfferForeign(1),
];

/// Nothing is delivered after the closing entry, and beats are ignored.
#[test]
fn closed(rt: HostRuntime) {
    goes(&rt, &CLOSED);
}

const HELD_BEYOND_THE_END: [Step; 6] = [
    Step::Offer(1, 1, "held"),
    Step::OfferClosing(0, "ready"),
    Step::Pop(0, 0),
    Step::Numbers {
        last: 1,
        told: 2,
        held: 1,
    },
    Step::Is(State::Normal),
    Step::WantAgain(None),
];

/// Entries that a faulty origin sends after its closing entry remain held.
#[test]
fn held_beyond_the_end(rt: HostRuntime) {
    goes(&rt, &HELD_BEYOND_THE_END);
}

const ANSWER_FREES_LATER_ENTRY: [Step; 10] = [
    Step::Offer(4, 1, "held"),
    Step::Want(Some((1, 4))),
    Step::Offer(0, 1, "ready"),
    Step::Pop(0, 0),
    Step::Offer(1, 3, "ready"),
    Step::Pop(4, 1),
    Step::Offer(0, 1, "repeat"),
    Step::Offer(1, 3, "repeat"),
    Step::Offer(4, 1, "repeat"),
    Step::Is(State::Normal),
];

/// A later entry is held until an answer brings the two before it; all three are repeats then.
#[test]
fn answer_frees_later_entry(rt: HostRuntime) {
    goes(&rt, &ANSWER_FREES_LATER_ENTRY);
}

const BEAT_TELLS_OF_A_LOSS: [Step; 11] = [
    Step::Offer(0, 1, "ready"),
    Step::Offer(1, 3, "ready"),
    Step::Is(State::Normal),
    Step::Beat(5),
    Step::Beat(3),
    Step::Numbers {
        last: 4,
        told: 5,
        held: 0,
    },
    Step::Want(Some((5, 5))),
    Step::Want(None),
    Step::WantAgain(Some((5, 5))),
    Step::Offer(4, 1, "ready"),
    Step::Is(State::Normal),
];

/// A beat reveals an entry that was lost, and the gap is queried once, or again.
#[test]
fn beat_tells_of_a_loss(rt: HostRuntime) {
    goes(&rt, &BEAT_TELLS_OF_A_LOSS);
}

const ANSWER_IS_TOO_SHORT: [Step; 4] = [
    Step::Beat(20),
    Step::Want(Some((1, 20))),
    Step::OfferEach(0, 15, "ready"),
    Step::Want(Some((17, 20))),
];

/// The first 16 of 20 entries arrive, and the other four are queried.
#[test]
fn answer_is_too_short(rt: HostRuntime) {
    goes(&rt, &ANSWER_IS_TOO_SHORT);
}

const LYING_ORIGIN: [Step; 8] = [
    Step::Offer(0, 3, "ready"),
    Step::Offer(1, 1, "repeat"),
    Step::Offer(5, 1, "held"),
    Step::Offer(5, 2, "repeat"),
    Step::Offer(3, 3, "ready"),
    Step::Pop(0, 0),
    Step::Numbers {
        last: 6,
        told: 6,
        held: 0,
    },
    Step::Is(State::Normal),
];

/// Entries of no common chain: what is delivered is a chain nevertheless.
#[test]
fn lying_origin(rt: HostRuntime) {
    goes(&rt, &LYING_ORIGIN);
}

/// Sixty-four entries, held in many orders, are all delivered in their own order.
#[test]
fn held_in_many_orders(rt: HostRuntime) -> Result<(), Fail> {
    for stride in 1..=64u64 {
        // The multiples of a stride that shares no factor with 65 are 1 to 64 in some order.
        if stride % 5 == 0 || stride % 13 == 0 {
            continue;
        }
        let mut steps = Vec::new(rt.alloc());
        for k in 1..=64u64 {
            steps.push(Step::Offer(k * stride % 65, 1, "held"))?;
        }
        steps.push(Step::Offer(0, 1, "ready"))?;
        steps.push(Step::Pop(1, 64))?;
        steps.push(Step::Is(State::Normal))?;
        let wrong = first_wrong(rt.alloc(), &steps).expect(&rt, "memory");
        assert_eq!(rt; wrong, None, "by a stride of {stride}");
    }
    Ok(())
}
