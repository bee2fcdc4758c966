//! The bytes of journals. The digests were made with Python's hashlib.
use super::kit::{append, damage, new_journal, no_texts, opened, reads_as};
use journal_device::{Limits, Memory};
use site_journal::{End, Journal, read};
use std::alloc::AllocGlobal;
use std::process::Abort;

const FIRST: &[u8] = b"= 9 883fe6fcd28b39b9\nA 1\nB 22\n";

/// Files that a crash may leave, and their records.
pub(crate) const LEFT: [(&[u8], &[u8]); 18] = [
    (b"", b""),
    (b"\0\0\0", b""),
    (b"= 9 883fe6fcd28b39b9\nA 1\nB 22\n", b"A 1|B 22|"),
    (b"= 9 883fe6fcd28b39b9\nA 1\nB 22\n\0\0", b"A 1|B 22|"),
    (b"= 9 883fe6fcd28b39b9\nA 1\nB 22\n=", b"A 1|B 22|"),
    (b"= 9 883fe6fcd28b39b9\nA 1\nB 22\n= ", b"A 1|B 22|"),
    (
        b"= 9 883fe6fcd28b39b9\nA 1\nB 22\n= 4 c198056f7db711ab\nC 3",
        b"A 1|B 22|",
    ),
    (
        b"= 9 883fe6fcd28b39b9\nA 1\nB 22\n= 4 c198056f7db711ab",
        b"A 1|B 22|",
    ),
    (
        b"= 9 883fe6fcd28b39b9\nA 1\nB 22\n\0 4 c198056f7db711ab\nC 3\n",
        b"A 1|B 22|",
    ),
    (
        b"= 9 883fe6fcd28b39b9\nA 1\nB 22\n= \0 c198056f7db711ab\nC 3\n",
        b"A 1|B 22|",
    ),
    (
        b"= 9 883fe6fcd28b39b9\nA 1\nB 22\n= 4 c198056f7db711ab\nC 3\0",
        b"A 1|B 22|",
    ),
    (
        b"= 9 883fe6fcd28b39b9\nA 1\nB 22\n= 4 c198056f7db711ab\nC \0\n\0\0",
        b"A 1|B 22|",
    ),
    (
        b"= 9 883fe6fcd28b39b9\nA 1\nB 22\n= 4 c19805\0\0\0\0\0\0\0\0\0\0\0\0\0\0\0",
        b"A 1|B 22|",
    ),
    (
        b"= 9 883fe6fcd28b39b9\nA 1\nB 22\n= 4 c198056f7db711ab\nC 3\n",
        b"A 1|B 22|C 3|",
    ),
    (
        b"= 9 883fe6fcd28b39b9\nA 1\nB 22\n= 4 c198056f7db711ab\nC 3\n\0",
        b"A 1|B 22|C 3|",
    ),
    // The order of batches and how often one stands there are for the records to say.
    (
        b"= 4 c198056f7db711ab\nC 3\n= 9 883fe6fcd28b39b9\nA 1\nB 22\n",
        b"C 3|A 1|B 22|",
    ),
    (
        b"= 4 c198056f7db711ab\nC 3\n= 4 c198056f7db711ab\nC 3\n",
        b"C 3|C 3|",
    ),
    // Its count is too long.
    (b"= 10 be455ae353735194\nA 1\nB 22\n", b""),
];

/// Other files, and the byte of the damage, or None.
pub(crate) const DAMAGED: [(&[u8], Option<usize>); 31] = [
    (b"hello", Some(0)),
    (b"A 1\n", Some(0)),
    (b"= 4", None),
    (b"x", Some(0)),
    (b"=x", Some(0)),
    (b"= 4 0123456789abcdef\nC 3\n", Some(0)),
    (
        b"= 9 883fe6fcd28b39b9\nA 1\nB 22\n= 4 c198056f7db711ab\nC 4\n",
        Some(30),
    ),
    (
        b"= 9 883fe6fcd28b39b9\nA 1\nB 22\n= 4 c1g8056f7db711ab\nC 3\n",
        Some(30),
    ),
    (
        b"= 8 883fe6fcd28b39b9\nA 1\nB 22\n= 4 c198056f7db711ab\nC 3\n",
        Some(0),
    ),
    (
        b"= 9x883fe6fcd28b39b9\nA 1\nB 22\n= 4 c198056f7db711ab\nC 3\n",
        Some(0),
    ),
    (
        b"= 9 883fe6fcd28b39b9\nA 1\nB 22\n= 4 c198056f7db711ab\nC 3x",
        Some(30),
    ),
    (
        b"= 9 883fe6fcd28b39b9\nA 1\nB 22\n= 4 c198056f7db711abxC 3\n= 4 c198056f7db711ab\nC 3\n",
        Some(30),
    ),
    (
        b"= 9 883fe6fcd28b39b9\nA 1\nB 2\0\n= 4 c198056f7db711ab\nC 3\n",
        Some(0),
    ),
    (
        b"= 9 883fe6fcd28b39b9\nA 1\nB 22\n= 4 c198056f7db711ab\nC 3\nE",
        Some(55),
    ),
    (
        b"= 9 883fe6fcd28b39b9\nA 1\nB 22\n= 4 c198056f7db711ab\nC 3\n\0\0x\0",
        None,
    ),
    (
        b"= 9 883fe6fcd28b39b9\nA 1\nB 22\n= 0 5d4f83d01eb0d4ff\n",
        Some(30),
    ),
    (
        b"= 9 883fe6fcd28b39b9\nA 1\nB 22\n= 04 925fec829b24ff88\nC 3\n",
        Some(30),
    ),
    (
        b"= 9 883fe6fcd28b39b9\nA 1\nB 22\n= 1048577 0123456789abcdef\nC 3\n",
        Some(30),
    ),
    (
        b"= 9 883fe6fcd28b39b9\nA 1\nB 22\n= 1048576 0123456789abcdef\nC 3\n",
        None,
    ),
    (
        b"= 9 883fe6fcd28b39b9\nA 1\nB 22\n= 4  123456789abcdef\nC 3\n",
        Some(30),
    ),
    // A count that is too short, with the digest of what it counts, and of what it should.
    (b"= 4 cb4a83c0c261066e\nA 1\nB 22\n", Some(25)),
    (b"= 8 f582ee7a3a2f823d\nA 1\nB 22\n", Some(0)),
    (b"= 8 a16b8672f1779f31\nA 1\nB 22\n", Some(0)),
    // One that is too long, before another batch.
    (
        b"= 10 be455ae353735194\nA 1\nB 22\n= 4 c198056f7db711ab\nC 3\n",
        Some(0),
    ),
    // Batches that lack a byte, and behind them another one.
    (
        b"= 90 883fe6fcd28b39b9\nA 1\nB 22\n= 4 c198056f7db711ab\nC 3\n",
        Some(0),
    ),
    (
        b"\0 9 883fe6fcd28b39b9\nA 1\nB 22\n= 4 c198056f7db711ab\nC 3\n",
        Some(0),
    ),
    (b"= 9 883fe6fcd28b39b9\nA 1\nB 22\n=\0", None),
    (b"= 9 883fe6fcd28b39b9\nA 1\n=", Some(0)),
    (b"= 9 883fe6fcd28b39b9\n=", Some(0)),
    // Records that begin as a header does.
    (b"= 4 45314b1db9905649\n= 1\n", Some(0)),
    (b"= 6 c0ee059faf6d19fe\nA 1\n=\n", Some(0)),
];

/// Three batches, which end at 30, 55 and 80.
const WHOLE: &[u8] =
    b"= 9 883fe6fcd28b39b9\nA 1\nB 22\n= 4 c198056f7db711ab\nC 3\n= 4 73f2f66964b5822b\nD 4\n";

const ENDS: [usize; 4] = [0, 30, 55, 80];

/// The records up to there.
const TEXTS: [&[u8]; 4] = [b"", b"A 1|B 22|", b"A 1|B 22|C 3|", b"A 1|B 22|C 3|D 4|"];

/// The batch that a byte belongs to.
fn batch_at(place: usize) -> usize {
    if place < 30 {
        0
    } else if place < 55 {
        1
    } else {
        2
    }
}

fn texts_of(batch: usize) -> &'static [u8] {
    TEXTS.get(batch).copied().unwrap_or(b"")
}

fn end_of(batch: usize) -> usize {
    ENDS.get(batch).copied().unwrap_or(0)
}

/// A copy of a file, with this byte in a place.
fn changed(rt: &(impl Abort + AllocGlobal), whole: &[u8], place: usize, byte: u8) -> Vec<u8> {
    let mut image = whole.to_vec(rt.alloc()).expect(rt, "memory");
    if let Some(old) = image.get_mut(place) {
        *old = byte;
    }
    image
}

/// Whether opening answers as it must where one byte has changed. A changed byte is damage, at the start of its batch,
/// with two exceptions in the last batch: a zero byte may be one that was not written, and the count may count more bytes
/// than came.
fn is_told(rt: &(impl Abort + AllocGlobal), image: &[u8], place: usize, byte: u8) -> bool {
    let batch = batch_at(place);
    let is_lost = byte == 0 && batch == 2;
    let is_more = place == 57 && byte > b'4' && byte <= b'9';
    if WHOLE.get(place) == Some(&byte) {
        reads_as(rt, image, texts_of(3))
    } else if is_lost || is_more {
        reads_as(rt, image, texts_of(batch))
    } else {
        damage(rt, image, usize::MAX) == Some(end_of(batch))
    }
}

/// Files that a crash may leave, batches in another order, and a batch that stands there twice.
#[test]
fn files_that_a_crash_leaves(rt: HostRuntime) {
    for (i, (image, records)) in LEFT.iter().enumerate() {
        assert!(rt; reads_as(&rt, image, records), "file {i}");
    }
}

/// Whether the damage is found, also where reads return a few bytes at a time.
fn is_damaged(rt: &(impl Abort + AllocGlobal), image: &[u8], at_byte: Option<usize>) -> bool {
    for piece in [usize::MAX, 1, 7, 27] {
        if damage(rt, image, piece) != at_byte {
            return false;
        }
    }
    true
}

#[test]
fn damaged_files(rt: HostRuntime) {
    for (i, (image, at_byte)) in DAMAGED.iter().enumerate() {
        assert!(rt; is_damaged(&rt, image, *at_byte), "file {i}");
    }
}

/// Whether opening answers as it must, whatever is put in the place of this byte.
fn are_told(rt: &(impl Abort + AllocGlobal), place: usize) -> bool {
    for byte in 0..=255 {
        if !is_told(rt, &changed(rt, WHOLE, place, byte), place, byte) {
            return false;
        }
    }
    true
}

/// Each byte of a journal is set to each value.
#[test]
fn changed_bytes(rt: HostRuntime) {
    for place in 0..WHOLE.len() {
        assert!(rt; are_told(&rt, place), "byte {place}");
    }
}

/// Batches whose counts have two digits: a greater one counts more bytes than the file has.
const RUN: [&[u8]; 4] = [
    b"A 1|B 2222222|",
    b"C 33333333333|",
    b"D 4|E 5555555|",
    b"F 666666666666|",
];

/// Their records but those of the last one.
const BUT_LAST: &[u8] = b"A 1|B 2222222|C 33333333333|D 4|E 5555555|";

/// Appends them to a journal, and returns where the last one begins.
fn append_run(rt: &(impl Abort + AllocGlobal), journal: &mut Journal<Memory>) -> usize {
    let mut last = 0;
    for texts in &RUN {
        last = journal.len();
        append(rt, journal, texts);
    }
    last
}

/// Whether a changed journal is refused as damage. Of the last batch it may also be one that was not told, and then it
/// alone is cut off.
fn is_kept(rt: &(impl Abort + AllocGlobal), image: &[u8], is_last: bool) -> bool {
    damage(rt, image, usize::MAX).is_some() || (is_last && reads_as(rt, image, BUT_LAST))
}

/// Whether it is, if the byte becomes a zero byte, and if each bit of it is flipped.
fn are_kept(rt: &(impl Abort + AllocGlobal), whole: &[u8], place: usize, is_last: bool) -> bool {
    let old = whole.get(place).copied().unwrap_or(0);
    if !is_kept(rt, &changed(rt, whole, place, 0), is_last) {
        return false;
    }
    for bit in [1, 2, 4, 8, 16, 32, 64, 128] {
        if !is_kept(rt, &changed(rt, whole, place, old ^ bit), is_last) {
            return false;
        }
    }
    true
}

/// One byte of a journal that is lost, or one bit that is flipped, loses no batch but the last one.
#[test]
fn flipped_bits(rt: HostRuntime) {
    let mut journal = new_journal(&rt);
    let last = append_run(&rt, &mut journal);
    let whole = journal.device().bytes();
    for place in 0..whole.len() {
        assert!(rt; are_kept(&rt, whole, place, place >= last), "byte {place}");
    }
}

/// Whether the file, ended there, has the batches that are whole.
fn is_ended(rt: &(impl Abort + AllocGlobal), len: usize) -> bool {
    let mut texts = no_texts(rt.alloc());
    let journal = opened(rt, WHOLE.get(..len).unwrap_or(b""), &mut texts);
    let end = end_of(batch_at(len));
    texts.all.as_slice() == texts_of(batch_at(len))
        && journal.len() == end
        && journal.was_cut() == (len != end)
}

/// A journal that ends at each byte.
#[test]
fn files_of_each_length(rt: HostRuntime) {
    for len in 0..WHOLE.len() {
        assert!(rt; is_ended(&rt, len), "length {len}");
    }
}

/// Whether reading finds this end, and leaves the file unchanged.
fn reads_to(rt: &(impl Abort + AllocGlobal), image: &[u8], end: End) -> bool {
    let mut texts = no_texts(rt.alloc());
    let mut file = Memory::new(rt.alloc(), image, Limits::NONE).expect(rt, "memory");
    read(rt.alloc(), &mut file, &mut texts).ok() == Some(end) && file.bytes() == image
}

/// Reading finds where a journal ends, and leaves what stands behind.
#[test]
fn reading(rt: HostRuntime) {
    let rest = b"= 9 883fe6fcd28b39b9\nA 1\nB 22\n= 4 c19805";
    let has_rest = true;
    assert!(rt; reads_to(&rt, rest, End { at: 30, has_rest }));
    let has_rest = false;
    assert!(rt; reads_to(&rt, FIRST, End { at: 30, has_rest }));
}
