//! Entries and answers of every size, with ample memory and with each memory request refused in turn. An inbound that
//! gives up at some size can be proved, since it may always run out of memory; it is found here.
use crate::tests::calls::Put;
use crate::tests::incoming::steps::{AT_SITE_2_OF_16, Place, plays};
use crate::tests::incoming::texts::{LONG_GRANT, put_all_ready, put_answer, put_entry};
use crate::tests::templates::{fill, filled};
use std::alloc::AllocGlobal;
use std::process::Abort;

// Moves that may be anywhere in any entry, and what the last one is: the same, or one that closes.
const MOVES: [&str; 6] = [" I:10", " S:9", " G:2:8:7", " R:3:6", " V:4:5", LONG_GRANT];

const LASTS: [&str; 3] = ["", " C", " K:0:1:2:3:4:5:6:7:8:9:10:11:12:13:14:1000000000"];

// The first entry of a log.
fn put_first(script: &mut String, count: u64, each: &str, last: &str) -> Put {
    let last = if last.is_empty() { each } else { last };
    put_entry(script, 0, count, each, last)?;
    fill(script, " > ready $1\n", &[count])
}

// Whether the first entry of a log makes three requests: the inbound, the entry and its verdict.
fn makes_three(rt: &(impl Abort + AllocGlobal), count: u64, each: &str, last: &str) -> bool {
    let mut script = String::new(rt.alloc());
    put_first(&mut script, count, each, last).expect(rt, "memory");
    plays(rt, AT_SITE_2_OF_16, &script) == Some(3)
}

/// Entries of 1 to 16 moves of each kind, the last of which closes or not.
#[test]
fn entries_of_every_size(rt: HostRuntime) {
    for count in 1..=16u64 {
        for each in &MOVES {
            for last in &LASTS {
                let right = makes_three(&rt, count, *each, *last);
                assert!(rt; right, "{count} moves{each}, then{last}");
            }
        }
    }
}

// How many requests an answer makes whose first entry has this number of moves, and each further one this many
// more.
fn requests_of_answer(
    rt: &(impl Abort + AllocGlobal),
    entries: u64,
    first: u64,
    more: u64,
) -> Option<u64> {
    let mut script = String::new(rt.alloc());
    put_answer(&mut script, entries, first, more, LONG_GRANT).expect(rt, "memory");
    put_all_ready(&mut script, entries, first, more).expect(rt, "memory");
    plays(rt, AT_SITE_2_OF_16, &script)
}

// The moves of the first entry of an answer, and how many more each further one has.
const GROWTHS: [(u64, u64); 3] = [(1, 0), (16, 0), (1, 1)];

/// Answers with 0 to 16 entries: of 1, of 16, and of 1 to 16 moves.
#[test]
fn answers_of_every_size(rt: HostRuntime) {
    for entries in 0..=16u64 {
        // The inbound, the verdicts and the list make one request each, and each entry one.
        let wanted = if entries == 0 { 1 } else { entries + 3 };
        for (first, more) in &GROWTHS {
            let requests = requests_of_answer(&rt, entries, *first, *more);
            assert!(rt;
                requests == Some(wanted),
                "{entries} entries of {first} and {more}"
            );
        }
    }
}

const QUERIES: [u64; 6] = [9, 10, 4_321, 9_999_999, 123_456_789, 1_000_000_000];

/// Queries of many lengths.
#[test]
fn queries_of_many_sizes(rt: HostRuntime) {
    for number in &QUERIES {
        let script = filled(&rt, "B 1 $1 > beat $1\nquery > Q 2 1 1 $1\n", &[*number]);
        assert!(rt; plays(&rt, AT_SITE_2_OF_16, &script) == Some(2), "{number}");
    }
}

const OF_PAIR: &str = "\
state > Normal 0 0
B $2 9 > beat 9
query > Q $1 $2 1 9
";

// Whether an inbound of these sites and its first query make one request each.
fn makes_two(rt: &(impl Abort + AllocGlobal), me: u64, origin: u64, sites: u64) -> bool {
    let script = filled(rt, OF_PAIR, &[me, origin]);
    plays(rt, Place { me, origin, sites }, &script) == Some(2)
}

/// Any two sites of 2 to 16: an inbound is made, and queries what is missing.
#[test]
fn inbounds_of_any_two_sites(rt: HostRuntime) {
    for sites in 2..=16u64 {
        for me in 1..=sites {
            for origin in 1..=sites {
                let right = me == origin || makes_two(&rt, me, origin, sites);
                assert!(rt; right, "{me} of {origin} among {sites}");
            }
        }
    }
}
