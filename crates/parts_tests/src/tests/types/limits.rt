//! The limits of values, at and just beyond them. Contracts say which values are refused, and why; here each
//! constructor is called.
use rights_types::{
    Amount, Answer, Ask, AskNumber, Beat, Deny, Entry, Frontier, MAX_AMOUNT, MAX_ANSWER, MAX_ASK,
    MAX_NUMBER, MAX_SITES, MAX_TOTAL, Move, Query, SiteId, Total, TypeError,
};
use std::alloc::Global;
use std::test::Fail;
use test_kit::{close, close_at, entry, give, issue, take_back};

// Numbers at the limits 1 and `most` and just beyond them, and whether they fit.
fn at_limits(most: u64) -> [(u64, bool); 4] {
    [
        (0, false),
        (1, true),
        (most, true),
        (most.saturating_add(1), false),
    ]
}

#[test]
fn numbers_in_their_ranges(rt: HostRuntime) {
    for (number, fits) in at_limits(MAX_SITES) {
        assert!(rt; SiteId::new(number).is_ok() == fits, "site {number}");
    }
    for (number, fits) in at_limits(MAX_AMOUNT) {
        assert!(rt; Amount::new(number).is_ok() == fits, "amount {number}");
    }
    for (number, fits) in at_limits(MAX_ASK) {
        assert!(rt; AskNumber::new(number).is_ok() == fits, "ask {number}");
    }
    for (number, fits) in at_limits(MAX_TOTAL) {
        assert!(rt; Total::new(number).is_ok() == fits, "total {number}");
    }
}

#[test]
fn frontiers(rt: HostRuntime) -> Result<(), Fail> {
    for (numbers, refusal) in [
        ([0; 17].as_slice(), Some(TypeError::BadCount)),
        (&[0; 16], None),
        (&[0], Some(TypeError::BadCount)),
        (&[0, MAX_NUMBER + 1], Some(TypeError::BadNumber)),
    ] {
        assert!(rt;
            Frontier::new(numbers).err() == refusal,
            "{} numbers",
            numbers.len()
        );
    }
    let frontier = Frontier::new(&[0, MAX_NUMBER])?;
    assert!(rt; frontier.count() == 2);
    for (site, number) in [(1, Some(0)), (2, Some(MAX_NUMBER)), (3, None)] {
        assert!(rt; frontier.at(SiteId::new(site)?) == number, "site {site}");
    }
    Ok(())
}

// Whether an entry of site 2 after a number, with these moves, is refused for the cause, or is built if
// there is none.
fn comes_to(alloc: Global, prev: u64, moves: &[Move], cause: Option<TypeError>) -> bool {
    match Vec::from_slice(alloc, moves) {
        Ok(moves) => Entry::new(SiteId::known(2), prev, moves).err() == cause,
        Err(_) => false,
    }
}

// Whether counts of moves at and beyond the limits have the expected results, and the last number too.
fn are_counted(alloc: Global) -> bool {
    comes_to(alloc, 0, &[], Some(TypeError::BadCount))
        && comes_to(alloc, 0, &[issue(5); 17], Some(TypeError::BadCount))
        && comes_to(alloc, 0, &[issue(5); 16], None)
        && comes_to(alloc, MAX_NUMBER - 1, &[issue(5)], None)
        && comes_to(
            alloc,
            MAX_NUMBER - 1,
            &[issue(5); 2],
            Some(TypeError::BadNumber),
        )
}

/// The causes in their order.
#[test]
fn entries(rt: HostRuntime) -> Result<(), Fail> {
    let alloc = rt.alloc();
    assert!(rt; are_counted(alloc));
    assert!(rt;
        comes_to(
            alloc,
            0,
            &[close(), give(2, 1)],
            Some(TypeError::CloseNotLast)
        )
    );
    assert!(rt; comes_to(alloc, 0, &[give(2, 1)], Some(TypeError::SameSite)));
    assert!(rt; comes_to(alloc, 0, &[take_back(2, 1)], Some(TypeError::SameSite)));
    let (other, own) = (close_at(&[7, 0])?, close_at(&[0, 7])?);
    assert!(rt; comes_to(alloc, 0, &[other], None));
    assert!(rt; comes_to(alloc, 0, &[own, close()], Some(TypeError::BadNumber)));
    Ok(())
}

#[test]
fn messages_between_two_sites(rt: HostRuntime) -> Result<(), Fail> {
    let (one, two) = (SiteId::new(1)?, SiteId::new(2)?);
    let (ask, amount) = (AskNumber::new(1)?, Amount::new(6)?);
    assert!(rt; Query::new(one, one, 1, MAX_NUMBER).err() == Some(TypeError::SameSite));
    assert!(rt; Query::new(one, one, 1, MAX_NUMBER + 1).err() == Some(TypeError::BadNumber));
    assert!(rt; Ask::new(two, two, ask, amount).err() == Some(TypeError::SameSite));
    assert!(rt; Deny::new(two, two, ask).err() == Some(TypeError::SameSite));
    assert!(rt; Beat::new(one, MAX_NUMBER + 1).err() == Some(TypeError::BadNumber));
    let query = Query::new(two, one, 1, 4)?;
    assert!(rt; (query.asker(), query.origin()) == (two, one));
    assert!(rt; (query.first(), query.last()) == (1, 4));
    Ok(())
}

// Why an answer of site 1 to another site, with this number of entries of an origin, is refused.
fn refused_answer(
    alloc: Global,
    asker: u64,
    origin: u64,
    count: usize,
) -> Result<Option<TypeError>, Fail> {
    let mut entries = Vec::new(alloc);
    for _ in 0..count {
        entries.push(entry(alloc, origin, 0, &[issue(5)])?)?;
    }
    Ok(Answer::new(SiteId::new(1)?, SiteId::new(asker)?, entries).err())
}

const ANSWERS: [(u64, u64, usize, Option<TypeError>); 5] = [
    (1, 2, 17, Some(TypeError::BadSite)),
    (1, 1, 17, Some(TypeError::BadCount)),
    (1, 1, 1, Some(TypeError::SameSite)),
    (2, 1, 0, None),
    (2, 1, MAX_ANSWER, None),
];

/// The causes in their order.
#[test]
fn answers(rt: HostRuntime) -> Result<(), Fail> {
    let alloc = rt.alloc();
    for (asker, origin, count, expected) in ANSWERS {
        assert!(rt;
            refused_answer(alloc, asker, origin, count)? == expected,
            "{count} entries"
        );
    }
    Ok(())
}
