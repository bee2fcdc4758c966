//! Entries that arrive, each with all entries that it frees.
use crate::tests::buffer::steps::{Step, goes};
use std::test::Fail;

/// Windows that arrive backwards, each entry three times: each is delivered once, in order.
#[test]
fn windows_backwards(rt: HostRuntime) -> Result<(), Fail> {
    let mut steps = Vec::new(rt.alloc());
    for window in 0..3u64 {
        for down in 0..64u64 {
            let prev = window * 64 + 63 - down;
            if down < 63 {
                steps.push(Step::Arrive(prev, 1, "held", 0))?;
            } else {
                steps.push(Step::Arrive(prev, 1, "ready", 63))?;
            }
            steps.push(Step::Arrive(prev, 1, "repeat", 0))?;
            steps.push(Step::Arrive(prev, 1, "repeat", 0))?;
        }
    }
    steps.push(Step::Numbers {
        last: 192,
        told: 192,
        held: 0,
    })?;
    goes(&rt, &steps);
    Ok(())
}

const MOST_VERDICTS_ON_AN_ANSWER: [Step; 6] = [
    Step::OfferEach(1, 64, "held"),
    Step::Arrive(65, 1, "full", 0),
    Step::Answer(
        &[
            0, 79, 78, 77, 76, 75, 74, 73, 72, 71, 70, 69, 68, 67, 66, 65,
        ],
        94,
    ),
    Step::Numbers {
        last: 80,
        told: 80,
        held: 0,
    },
    Step::Answer(&[80], 1),
    Step::Answer(&[], 0),
];

/// The most verdicts on 16 entries: 64 entries were held before, and 14 of the 16 are held and freed too.
#[test]
fn most_verdicts_on_an_answer(rt: HostRuntime) {
    goes(&rt, &MOST_VERDICTS_ON_AN_ANSWER);
}

const LYING_ORIGIN_ARRIVES: [Step; 9] = [
    Step::Arrive(2, 1, "held", 0),
    Step::Arrive(5, 2, "held", 0),
    Step::Arrive(5, 1, "repeat", 0),
    Step::Arrive(3, 1, "held", 0),
    Step::Arrive(0, 2, "ready", 2),
    Step::Arrive(1, 1, "repeat", 0),
    Step::OfferClosing(4, "ready"),
    Step::Arrive(5, 1, "after close", 0),
    Step::Numbers {
        last: 5,
        told: 7,
        held: 1,
    },
];

/// Entries of no common chain, a closing entry, and what arrives after it.
#[test]
fn lying_origin_arrives(rt: HostRuntime) {
    goes(&rt, &LYING_ORIGIN_ARRIVES);
}
