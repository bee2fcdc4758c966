//! Lack of memory, and how much memory lines take.
use crate::tests::incoming::steps::{AT_SITE_2, AT_SITE_2_OF_16, Lines, plays};
use crate::tests::incoming::texts::{LONG_GRANT, put_answer};
use linked_list_allocator::LocalHeap;
use rights_types::{MAX_ANSWER, MAX_MOVES, Move};
use site_core::Inbound;
use std::alloc::{AllocError, AllocGlobal};
use std::process::Abort;
use sub_buffer::{MAX_VERDICTS, Verdict};

/// Lines that arrive in this order. The causes that refuse two of them are checked after their own memory is requested,
/// and before that for verdicts.
const LINES: &str = "\
E 1 4 5 S:2 > held
B 1 9 > beat 9
Q 1 2 1 4 > query 1 4
W 1 2 1 6 > ask 1 6
D 1 2 1 > deny 1
H 1 > hello
A 1 2;E 1 0 1 I:10;E 1 1 4 S:1 S:1 S:1 > ready 1 ready 4 ready 5
A 1 2 > no entries
E 1 0 1 I:10 > repeat
E 2 0 1 I:1 > error WrongOrigin
E 1 5 6 R:3:1 > error BadSite
E 1 5 7 I:1 K:0:0 > ready 7
";

/// Lines of each kind, with each of their requests refused in turn. `new` makes one, each entry one, an
/// answer with entries one more, and each line that brings entries and is not refused one for its verdicts.
#[test]
fn lines_with_each_growth_refused(rt: HostRuntime) {
    assert!(rt; plays(&rt, AT_SITE_2, LINES) == Some(1 + 7 + 1 + 4));
}

const QUERIES: &str = "\
E 1 4 5 S:2 > held
query > Q 2 1 1 4
query > nothing
query again > Q 2 1 1 4
query > nothing
";

/// A query's line makes one request, and its gap counts as queried if that is refused. Three more are
/// those of `new` and of the entry.
#[test]
fn queries_with_each_growth_refused(rt: HostRuntime) {
    assert!(rt; plays(&rt, AT_SITE_2, QUERIES) == Some(3 + 2));
}

// How many bytes this number of verdicts takes, and this number of moves.
fn room_of(heap: &LocalHeap, verdicts: usize, moves: usize) -> Result<usize, AllocError> {
    let before = heap.used();
    let verdicts: Vec<Verdict<&LocalHeap>, &LocalHeap> = Vec::with_capacity(heap, verdicts)?;
    let moves: Vec<Move, &LocalHeap> = Vec::with_capacity(heap, moves)?;
    let room = heap.used().saturating_sub(before);
    drop(moves);
    drop(verdicts);
    Ok(room)
}

// How many bytes the verdicts on a line take, unless it is refused.
fn bytes_of_verdicts(
    heap: &LocalHeap,
    inbound: &mut Inbound<&LocalHeap>,
    line: &[u8],
) -> Option<usize> {
    let fresh = heap.used();
    match inbound.on_line(line) {
        Ok(_arrival) => Some(heap.used().saturating_sub(fresh)),
        Err(_) => None,
    }
}

fn lines_on<'a>(rt: &(impl Abort + AllocGlobal), heap: &'a LocalHeap) -> Lines<&'a LocalHeap> {
    Lines::new(rt, heap, AT_SITE_2).expect(rt, "memory")
}

// Whether the answer of the numbers up to 256 takes this much memory after this line, and gives it back.
fn answer_takes(
    rt: &(impl Abort + AllocGlobal),
    heap: &LocalHeap,
    before: &str,
    answer: &[u8],
    room: usize,
) -> bool {
    let mut lines = Lines::new(rt, heap, AT_SITE_2_OF_16).expect(rt, "memory");
    lines.say(rt, before);
    let fresh = heap.used();
    bytes_of_verdicts(heap, &mut lines.inbound, answer) == Some(room)
        && lines.inbound.last() == 256
        && heap.used() == fresh
}

// A line before the longest answer, and how many verdicts the answer takes the room of.
const BEFORE_ANSWER: [(&str, usize); 2] = [
    ("B 1 256", MAX_ANSWER),
    ("E 1 999 1000 S:2", MAX_VERDICTS),
];

/// The longest answer takes the memory of its verdicts and of its moves, and gives it back: of 16 verdicts if it brings
/// the next entries and none is held, and else of 94. While it is read, it takes little more.
#[test]
fn bytes_of_the_longest_answer(rt: HostRuntime) {
    let mut answer = String::new(rt.alloc());
    put_answer(&mut answer, 16, 16, 0, LONG_GRANT).expect(&rt, "memory");
    answer.push('\n').expect(&rt, "memory");
    let heap = LocalHeap::new(rt.alloc(), 40_000).expect(&rt, "memory");
    for (before, verdicts) in &BEFORE_ANSWER {
        let room = room_of(&heap, *verdicts, MAX_ANSWER * MAX_MOVES).expect(&rt, "memory");
        let right = answer_takes(&rt, &heap, *before, answer.as_bytes(), room);
        assert!(rt; right, "{before}");
    }
}

// An entry, how many entries it is a verdict on, and how many are held then.
const ENTRIES: [(&str, usize, usize); 3] = [
    ("E 1 0 1 S:2\n", 1, 0),
    ("E 1 2 3 S:2\n", 1, 1),
    ("E 1 1 2 S:2\n", 2, 0),
];

/// An entry takes memory for its verdict, and for those on the entries that are held.
#[test]
fn bytes_of_an_entry(rt: HostRuntime) {
    let heap = LocalHeap::new(rt.alloc(), 1 << 16).expect(&rt, "memory");
    let mut lines = lines_on(&rt, &heap);
    for (line, verdicts, held) in &ENTRIES {
        let room = room_of(&heap, *verdicts, 1).ok();
        let bytes = bytes_of_verdicts(&heap, &mut lines.inbound, line.as_bytes());
        assert!(rt; *held == 1 || bytes == room, "{line}");
        assert!(rt; lines.inbound.held_count() == *held, "{line}");
    }
}

/// Lines, their results, and how many entries are held then.
const KEPT: [(&str, &str, usize); 7] = [
    ("E 2 0 1 I:1", "error WrongOrigin", 0),
    ("A 1 2;E 1 0 1 I:1;E 1 1 2 R:3:1", "error BadSite", 0),
    ("E 1 4 5 S:2", "held", 1),
    ("E 1 4 5 S:2", "repeat", 1),
    ("E 1 5 7 S:2 S:1", "held", 2),
    (
        "A 1 2;E 1 0 2 I:1 I:1;E 1 2 4 I:1 I:1",
        "ready 2 ready 4 ready 5 ready 7",
        0,
    ),
    ("E 1 0 1 I:1", "repeat", 0),
];

// Whether this number of entries is held, and only their moves are kept since the heap used that many bytes.
fn keeps(heap: &LocalHeap, lines: &Lines<&LocalHeap>, fresh: usize, held: usize) -> bool {
    let used = heap.used();
    let most = fresh.saturating_add(held.saturating_mul(160));
    used >= fresh && used <= most && lines.inbound.held_count() == held
}

/// Entries that are held keep only their moves, and all others nothing.
#[test]
fn bytes_that_are_kept(rt: HostRuntime) {
    let heap = LocalHeap::new(rt.alloc(), 1 << 16).expect(&rt, "memory");
    let mut lines = lines_on(&rt, &heap);
    let fresh = heap.used();
    for (line, expected, held) in &KEPT {
        lines.says(&rt, *line, *expected);
        assert!(rt; keeps(&heap, &lines, fresh, *held), "{line}");
    }
}

const QUERY: &str = "Q 2 1 1 1000000000\n";

// Whether the longest query takes at most this much memory.
fn query_takes(heap: &LocalHeap, inbound: &mut Inbound<&LocalHeap>, most: usize) -> bool {
    let fresh = heap.used();
    match inbound.query_line(false) {
        Ok(Some(line)) => {
            line.as_slice() == QUERY.as_bytes() && heap.used() <= fresh.saturating_add(most)
        }
        _ => false,
    }
}

/// A query's line takes the memory of its bytes, to the heap's next 16.
#[test]
fn bytes_of_a_query(rt: HostRuntime) {
    let heap = LocalHeap::new(rt.alloc(), 1 << 16).expect(&rt, "memory");
    let mut lines = lines_on(&rt, &heap);
    lines.says(&rt, "B 1 1000000000", "beat 1000000000");
    let fresh = heap.used();
    assert!(rt; query_takes(&heap, &mut lines.inbound, 32));
    assert!(rt; heap.used() == fresh);
}
