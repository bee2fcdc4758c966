//! What the tests share.
use journal_device::{Limits, Memory};
use site_journal::{Batch, Journal, JournalError, TakeRecords, is_text, open};
use std::alloc::{AllocGlobal, Global};
use std::process::Abort;

/// Keeps what it is handed: each record and a bar.
#[derive(Drop)]
pub(crate) struct Texts {
    pub(crate) all: Vec<u8>,
}

impl TakeRecords for Texts {
    ghost takes = { λ old text new. Unit {0} };

    ghost refuses = { λ old text new. Unit {0} };

    fn take_record(&mut self, text: &[u8]) -> bool {
        self.all.extend_from_slice(text).is_ok() && self.all.push(b'|').is_ok()
    }
}

pub(crate) fn no_texts(alloc: Global) -> Texts {
    Texts {
        all: Vec::new(alloc),
    }
}

/// Opens a file in memory with these bytes, whose records the texts get.
pub(crate) fn open_with(
    rt: &(impl Abort + AllocGlobal),
    image: &[u8],
    limits: Limits,
    texts: &mut Texts,
) -> Result<Journal<Memory>, (JournalError, Memory)> {
    let file = Memory::new(rt.alloc(), image, limits).expect(rt, "memory");
    open(rt.alloc(), file, texts)
}

/// The same, with no use for its records.
pub(crate) fn open_in(
    rt: &(impl Abort + AllocGlobal),
    image: &[u8],
    limits: Limits,
) -> Result<Journal<Memory>, (JournalError, Memory)> {
    open_with(rt, image, limits, &mut no_texts(rt.alloc()))
}

/// A journal over such a file, without limits.
pub(crate) fn opened(
    rt: &(impl Abort + AllocGlobal),
    image: &[u8],
    texts: &mut Texts,
) -> Journal<Memory> {
    match open_with(rt, image, Limits::NONE, texts) {
        Ok(journal) => journal,
        Err(_) => panic!(rt; "not opened"),
    }
}

/// A journal with no record.
pub(crate) fn new_journal(rt: &(impl Abort + AllocGlobal)) -> Journal<Memory> {
    opened(rt, b"", &mut no_texts(rt.alloc()))
}

/// Whether a file with these bytes is opened with these records.
pub(crate) fn reads_as(rt: &(impl Abort + AllocGlobal), image: &[u8], texts: &[u8]) -> bool {
    let mut got = no_texts(rt.alloc());
    open_with(rt, image, Limits::NONE, &mut got).is_ok() && got.all.as_slice() == texts
}

/// What opening answers: the byte of the damage, or None.
pub(crate) fn damage(rt: &(impl Abort + AllocGlobal), image: &[u8], piece: usize) -> Option<usize> {
    let limits = Limits {
        piece,
        ..Limits::NONE
    };
    match open_in(rt, image, limits) {
        Ok(_journal) => None,
        Err((error, file)) => Some(damage_of(rt, error, file.bytes() == image)),
    }
}

fn damage_of(rt: &impl Abort, error: JournalError, is_unchanged: bool) -> usize {
    match error {
        JournalError::Damage { at_byte } if is_unchanged => at_byte,
        _ => panic!(rt; "another error"),
    }
}

/// What a crash may leave of a file.
pub(crate) fn image_of(rt: &impl Abort, file: &Memory, written: u64, len: usize) -> Vec<u8> {
    file.image(written, len).expect(rt, "memory")
}

/// Adds a record, if the text is one.
pub(crate) fn push(rt: &impl Abort, batch: &mut Batch, text: &[u8]) {
    if is_text(text) {
        batch.push(text).expect(rt, "memory");
    }
}

// A batch of these records, each of which ends with a bar.
fn batch_of(rt: &(impl Abort + AllocGlobal), texts: &[u8]) -> Batch {
    let mut batch = Batch::new(rt.alloc()).expect(rt, "memory");
    let mut start = 0;
    for (i, byte) in texts.iter().enumerate() {
        if *byte == b'|' {
            push(rt, &mut batch, texts.get(start..i).unwrap_or(b""));
            start = i + 1;
        }
    }
    batch
}

/// What the journal answers to a batch of these records.
pub(crate) fn answer(
    rt: &(impl Abort + AllocGlobal),
    journal: &mut Journal<Memory>,
    texts: &[u8],
) -> Result<(), JournalError> {
    let mut batch = batch_of(rt, texts);
    journal.append(&mut batch)
}

pub(crate) fn append(rt: &(impl Abort + AllocGlobal), journal: &mut Journal<Memory>, texts: &[u8]) {
    assert!(rt; answer(rt, journal, texts).is_ok());
}
