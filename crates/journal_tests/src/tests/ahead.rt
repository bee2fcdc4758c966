//! A journal that is read by two threads is read as one thread reads it.
use super::files::{DAMAGED, LEFT};
use super::kit::{append, new_journal};
use journal_ahead::read_ahead;
use journal_device::{Limits, Memory};
use site_journal::{End, JournalError, MAX_BATCH, TakeRecords, read};
use std::alloc::Global;
use std::process::Abort;
use std::test::Fail;
use std::thread::Threads;

/// Keeps the records before the one that it refuses.
#[derive(Drop)]
struct Before {
    all: Vec<u8>,
    most: usize,
}

impl TakeRecords for Before {
    ghost takes = { λ old text new. Unit {0} };

    ghost refuses = { λ old text new. Unit {0} };

    fn take_record(&mut self, text: &[u8]) -> bool {
        let Some(most) = self.most.checked_sub(1) else {
            return false;
        };
        self.most = most;
        self.all.extend_from_slice(text).is_ok() && self.all.push(b'|').is_ok()
    }
}

/// How a file is read: when a read fails, and how many records are taken.
#[derive(Clone, Copy)]
struct How {
    calls: Option<u64>,
    most: usize,
}

const WHOLE: How = How {
    calls: None,
    most: usize::MAX,
};

/// What one thread makes of a file.
fn by_one(
    alloc: Global,
    image: &[u8],
    how: How,
) -> Result<(Result<End, JournalError>, Before), Fail> {
    let mut taker = Before {
        all: Vec::new(alloc),
        most: how.most,
    };
    let mut file = Memory::new(
        alloc,
        image,
        Limits {
            calls: how.calls,
            ..Limits::NONE
        },
    )?;
    let end = read(alloc, &mut file, &mut taker);
    Ok((end, taker))
}

/// The same by two threads.
fn by_two<R: Threads>(
    rt: &R,
    alloc: Global,
    image: &[u8],
    how: How,
) -> Result<(Result<End, JournalError>, Before), Fail> {
    let mut taker = Before {
        all: Vec::new(alloc),
        most: how.most,
    };
    let mut file = Memory::new(
        alloc,
        image,
        Limits {
            calls: how.calls,
            ..Limits::NONE
        },
    )?;
    let end = read_ahead(rt, alloc, &mut file, &mut taker);
    Ok((end, taker))
}

/// Whether both make the same of it, and this.
fn reads_alike<R: Threads>(
    rt: &R,
    alloc: Global,
    image: &[u8],
    how: How,
    error: Option<JournalError>,
) -> Result<bool, Fail> {
    let (one, taken) = by_one(alloc, image, how)?;
    let (two, taken_too) = by_two(rt, alloc, image, how)?;
    Ok(one == two && one.err() == error && taken.all.as_slice() == taken_too.all.as_slice())
}

/// Files of one part: those that a crash may leave, and damaged ones.
#[test]
fn files_of_one_part(rt: HostRuntime) -> Result<(), Fail> {
    for (i, (image, _)) in LEFT.iter().enumerate() {
        assert!(rt;
            reads_alike(&rt, rt.alloc(), image, WHOLE, None)?,
            "file {i}"
        );
    }
    for (i, (image, place)) in DAMAGED.iter().enumerate() {
        let error = place.map(|at_byte| JournalError::Damage { at_byte });
        assert!(rt;
            reads_alike(&rt, rt.alloc(), image, WHOLE, error)?,
            "file {i}"
        );
    }
    Ok(())
}

/// The long record of each batch, and the bytes of a batch: three of them are more than one part.
const LONG: usize = MAX_BATCH / 2 - 100;

const FRAME: usize = LONG + 29;

/// Seven batches, each of two records.
fn long_journal(rt: &(impl Abort + AllocGlobal)) -> Vec<u8> {
    let mut texts = b"A|".to_vec(rt.alloc()).expect(rt, "memory");
    texts.resize(LONG + 2, b'x').expect(rt, "memory");
    texts.push(b'|').expect(rt, "memory");
    let mut journal = new_journal(rt);
    for _ in 0..7 {
        append(rt, &mut journal, texts.as_slice());
    }
    journal
        .device()
        .bytes()
        .to_vec(rt.alloc())
        .expect(rt, "memory")
}

/// A file of four parts: whole, with one record refused, and with one read that fails.
#[test]
fn file_of_several_parts(rt: HostRuntime) -> Result<(), Fail> {
    let image = long_journal(&rt);
    assert_eq!(rt; image.len(), 7 * FRAME);
    assert!(rt; reads_alike(&rt, rt.alloc(), image.as_slice(), WHOLE, None)?);
    for most in 0..14 {
        let how = How { most, ..WHOLE };
        let error = Some(JournalError::Refused);
        assert!(rt;
            reads_alike(&rt, rt.alloc(), image.as_slice(), how, error)?,
            "record {most}"
        );
    }
    for calls in 0..7 {
        let how = How {
            calls: Some(calls),
            ..WHOLE
        };
        let error = Some(JournalError::Failed);
        assert!(rt;
            reads_alike(&rt, rt.alloc(), image.as_slice(), how, error)?,
            "call {calls}"
        );
    }
    Ok(())
}

/// Whether a damaged batch is told at its place, unless a record before it is refused.
fn is_told_in_order<R: Threads>(
    rt: &R,
    alloc: Global,
    whole: &[u8],
    number: usize,
) -> Result<bool, Fail> {
    let at_byte = number.saturating_mul(FRAME);
    let mut image = whole.to_vec(alloc)?;
    if let Some(byte) = image.get_mut(at_byte.saturating_add(40)) {
        *byte = b'y';
    }
    let damage = Some(JournalError::Damage { at_byte });
    for most in 0..14 {
        let error = if most / 2 < number {
            Some(JournalError::Refused)
        } else {
            damage
        };
        if !reads_alike(rt, alloc, image.as_slice(), How { most, ..WHOLE }, error)? {
            return Ok(false);
        }
    }
    Ok(true)
}

/// A refused record and a damaged batch: what stands first in the file is told.
#[test]
fn damage_behind_and_before_a_refused_record(rt: HostRuntime) -> Result<(), Fail> {
    let image = long_journal(&rt);
    for number in 0..7 {
        assert!(rt;
            is_told_in_order(&rt, rt.alloc(), image.as_slice(), number)?,
            "batch {number}"
        );
    }
    Ok(())
}
