//! Crashes at every call of short runs. Of each byte that no sync followed, the old one or the new one is there, and
//! the file has any length that it may have.
use super::kit::{answer, image_of, open_in, reads_as};
use journal_device::{Device, Limits, Memory};
use site_journal::Journal;
use std::alloc::AllocGlobal;
use std::process::Abort;

/// The batches of a run.
const RUN: [&[u8]; 3] = [b"A|", b"B 2|CC|", b"D|"];

/// The records of the first of them.
const TOLD: [&[u8]; 4] = [b"", b"A|", b"A|B 2|CC|", b"A|B 2|CC|D|"];

/// No batch of a run has more bytes, with its header.
const WIDTH: u64 = 28;

/// Files that a run begins with: they stand for no record, and have zero bytes or the rest of an append.
const STARTS: [&[u8]; 4] = [
    b"",
    b"\0\0\0\0\0\0\0\0\0\0\0\0\0\0\0\0\0\0\0\0\0\0\0\0\0",
    b"= 2 30de63",
    b"= 7 d972afd20917b708\nB 2\n\0\0\0",
];

/// A run that ended, because a call failed or all is appended: its file, and how many batches it appended.
#[derive(Drop)]
struct Ended {
    file: Memory,
    done: usize,
}

/// A run whose call after so many fails.
fn run(rt: &(impl Abort + AllocGlobal), start: &[u8], calls: u64) -> Ended {
    match open_until(rt, start, calls) {
        Ok(journal) => append_all(rt, journal),
        Err(file) => Ended { file, done: 0 },
    }
}

/// A file that is opened until a call fails.
fn open_until(
    rt: &(impl Abort + AllocGlobal),
    image: &[u8],
    calls: u64,
) -> Result<Journal<Memory>, Memory> {
    let limits = Limits {
        calls: Some(calls),
        ..Limits::NONE
    };
    match open_in(rt, image, limits) {
        Ok(journal) => Ok(journal),
        Err((_, file)) => Err(file),
    }
}

fn append_all(rt: &(impl Abort + AllocGlobal), mut journal: Journal<Memory>) -> Ended {
    let done = count_appended(rt, &mut journal);
    Ended {
        file: journal.into_device(),
        done,
    }
}

/// How many batches of a run are appended before one fails.
fn count_appended(rt: &(impl Abort + AllocGlobal), journal: &mut Journal<Memory>) -> usize {
    for (done, texts) in RUN.iter().enumerate() {
        if answer(rt, journal, texts).is_err() {
            return done;
        }
    }
    RUN.len()
}

/// Whether a file with these bytes has what was told, or that and the whole next batch.
fn has_either(rt: &(impl Abort + AllocGlobal), image: &[u8], done: usize) -> bool {
    let told = TOLD.get(done).copied().unwrap_or(b"");
    let more = TOLD.get(done.saturating_add(1)).copied().unwrap_or(told);
    reads_as(rt, image, told) || reads_as(rt, image, more)
}

/// Whether a crash now leaves the one or the other.
fn is_safe(rt: &(impl Abort + AllocGlobal), ended: &Ended, written: u64, len: usize) -> bool {
    let image = image_of(rt, &ended.file, written, len);
    has_either(rt, image.as_slice(), ended.done)
}

/// The byte with this number, or none.
fn byte(place: u64) -> u64 {
    if place < WIDTH { 1 << place } else { 0 }
}

/// Bytes of which all, or each second one, came to the disk.
const SOME: [u64; 3] = [u64::MAX, 0x5555_5555_5555_5555, 0xaaaa_aaaa_aaaa_aaaa];

/// Whether a crash is safe if these bytes came, or if the others did.
fn are_safe(rt: &(impl Abort + AllocGlobal), ended: &Ended, bytes: u64) -> bool {
    is_safe(rt, ended, bytes, usize::MAX) && is_safe(rt, ended, !bytes, usize::MAX)
}

/// The same of this byte and any one before it.
fn are_both_safe(rt: &(impl Abort + AllocGlobal), ended: &Ended, last: u64) -> bool {
    for place in 0..=last {
        if !are_safe(rt, ended, byte(last) | byte(place)) {
            return false;
        }
    }
    true
}

/// The same of a file that is so many bytes longer than before the write, at most.
fn is_length_safe(rt: &(impl Abort + AllocGlobal), ended: &Ended, more: u64) -> bool {
    let shortest = image_of(rt, &ended.file, 0, 0).len();
    let len = shortest.saturating_add(more as usize);
    for written in &SOME {
        if !is_safe(rt, ended, *written, len) {
            return false;
        }
    }
    true
}

/// Whether a crash now is safe, whichever two bytes came to the disk or did not come, and whatever the length.
fn is_crash_safe(rt: &(impl Abort + AllocGlobal), ended: &Ended) -> bool {
    for place in 0..=WIDTH {
        if !are_both_safe(rt, ended, place) || !is_length_safe(rt, ended, place) {
            return false;
        }
    }
    true
}

/// Whether a crash may leave more than one file.
fn is_torn(rt: &impl Abort, file: &Memory) -> bool {
    let least = image_of(rt, file, 0, 0);
    least.as_slice() != image_of(rt, file, u64::MAX, usize::MAX).as_slice()
}

/// Whether a crash at the end of a run is safe.
fn is_end_safe(rt: &(impl Abort + AllocGlobal), ended: &Ended) -> bool {
    if is_torn(rt, &ended.file) {
        is_crash_safe(rt, ended)
    } else {
        is_safe(rt, ended, 0, 0)
    }
}

/// Whether each crash point of a run is safe.
fn is_run_safe(rt: &(impl Abort + AllocGlobal), start: &[u8]) -> bool {
    for calls in 0..40 {
        let ended = run(rt, start, calls);
        if !is_end_safe(rt, &ended) {
            return false;
        }
        if ended.done == RUN.len() {
            return true;
        }
    }
    false
}

#[test]
fn every_crash_of_a_run(rt: HostRuntime) {
    for start in &STARTS {
        assert!(rt; is_run_safe(&rt, start));
    }
}

/// Whether a crash now leaves these records, whatever the length.
fn leaves(rt: &(impl Abort + AllocGlobal), file: &Memory, texts: &[u8]) -> bool {
    let longest = image_of(rt, file, 0, usize::MAX).len();
    let shortest = image_of(rt, file, 0, 0).len();
    for len in shortest..=longest {
        if !reads_as(rt, image_of(rt, file, 0, len).as_slice(), texts) {
            return false;
        }
    }
    true
}

/// Whether each crash while the file is opened leaves these records.
fn opens_safely(rt: &(impl Abort + AllocGlobal), image: &[u8], texts: &[u8]) -> bool {
    for calls in 0..20 {
        match open_until(rt, image, calls) {
            Ok(journal) => return leaves(rt, journal.device(), texts),
            Err(file) => {
                if !leaves(rt, &file, texts) {
                    return false;
                }
            }
        }
    }
    false
}

/// Whether opening is safe after a crash that left these bytes and this length.
fn is_reopened(rt: &(impl Abort + AllocGlobal), ended: &Ended, written: u64, len: usize) -> bool {
    let image = image_of(rt, &ended.file, written, len);
    opens_safely(rt, image.as_slice(), b"A|")
}

/// Whether opening is safe after a crash that lost this byte, or ended the file there.
fn is_loss_safe(rt: &(impl Abort + AllocGlobal), ended: &Ended, place: u64) -> bool {
    let end = 23usize.saturating_add(place as usize);
    is_reopened(rt, ended, !byte(place), usize::MAX) && is_reopened(rt, ended, u64::MAX, end)
}

/// What a crash may leave of the second batch is opened, and that may crash too.
#[test]
fn crashes_of_opening(rt: HostRuntime) {
    let ended = run(&rt, b"", 5);
    assert!(rt; ended.done == 1);
    for place in 0..WIDTH {
        assert!(rt; is_loss_safe(&rt, &ended, place), "byte {place}");
    }
}

/// Whether a crash is safe, whether this byte and any two before it came or did not.
fn are_any_safe(rt: &(impl Abort + AllocGlobal), ended: &Ended, last: u64) -> bool {
    for a in 0..=last {
        for b in 0..=a {
            if !are_safe(rt, ended, byte(last) | byte(a) | byte(b)) {
                return false;
            }
        }
    }
    true
}

/// Of a batch of 23 bytes: any three bytes came, or any three did not.
#[test]
fn any_three_bytes(rt: HostRuntime) {
    let ended = run(&rt, b"", 3);
    for last in 0..23 {
        assert!(rt; are_any_safe(&rt, &ended, last));
    }
}

/// What a crash may leave of "ab" with "XY" written at 1: which bytes came, the length, and the file.
const WRITTEN: [(u64, usize, &[u8]); 9] = [
    (0, 0, b"ab"),
    (1, 0, b"aX"),
    (2, 0, b"ab"),
    (3, 2, b"aX"),
    (0, 3, b"ab\0"),
    (1, 3, b"aX\0"),
    (2, 3, b"abY"),
    (3, 3, b"aXY"),
    (u64::MAX, 9, b"aXY"),
];

/// The same of "aXY" cut to one byte.
const CUT: [(usize, &[u8]); 4] = [(0, b"a"), (1, b"a"), (2, b"aX"), (9, b"aXY")];

fn written(rt: &(impl Abort + AllocGlobal)) -> Memory {
    let mut file = Memory::new(rt.alloc(), b"ab", Limits::NONE).expect(rt, "memory");
    assert!(rt; file.write_at(1, b"XY").is_ok());
    file
}

fn sync_and_cut(file: &mut Memory) -> bool {
    file.sync().is_ok() && file.cut(1).is_ok()
}

fn is_image(rt: &impl Abort, file: &Memory, written: u64, len: usize, image: &[u8]) -> bool {
    image_of(rt, file, written, len).as_slice() == image
}

/// The files in memory have the images that a crash may leave.
#[test]
fn images(rt: HostRuntime) {
    let mut file = written(&rt);
    for (came, len, image) in &WRITTEN {
        assert!(rt; is_image(&rt, &file, *came, *len, image));
    }
    assert!(rt; sync_and_cut(&mut file));
    for (len, image) in &CUT {
        assert!(rt; is_image(&rt, &file, 0, *len, image));
    }
}
