//! Runs of one buffer, described step by step.
ghost use Rattle.std.specs.Prelude.{◌≡◌, IfOk};
ghost use Rattle.std.specs.List.{All};
ghost use Rattle.rights_types.specs.Entries.{EntryValue};

use rights_types::{Entry, MAX_ANSWER, MAX_MOVES, MAX_NUMBER, Move, OutOfMemory, Query, SiteId};
use std::alloc::{AllocGlobal, Allocator};
use std::process::Abort;
use sub_buffer::{BufferError, MAX_VERDICTS, State, SubBuffer, Verdict};
use test_kit::{close, issue};

/// A call of a buffer of site 2 for the log of site 1, and its result. Entries are described by the number
/// before them and their count of moves, verdicts by a word.
#[derive(Clone, Copy)]
pub(crate) enum Step {
    /// An entry is offered.
    Offer(u64, usize, &'static str),
    /// Entries of one move are offered, after each number from the first to the last.
    OfferEach(u64, u64, &'static str),
    /// An entry of site 3 is offered.
    OfferForeign(u64),
    /// A closing entry is offered.
    OfferClosing(u64, &'static str),
    /// All that is delivered next: this number of entries of one move, the first after the number.
    Pop(u64, u64),
    /// An entry arrives, and frees this number of entries.
    Arrive(u64, usize, &'static str, usize),
    /// An answer arrives, with entries of one move after these numbers: this number of verdicts.
    Answer(&'static [u64], usize),
    Beat(u64),
    Gap(Option<(u64, u64)>),
    Want(Option<(u64, u64)>),
    WantAgain(Option<(u64, u64)>),
    Numbers { last: u64, told: u64, held: usize },
    Is(State),
}

/// Every step has the expected result.
pub(crate) fn goes(rt: &(impl Abort + AllocGlobal), steps: &[Step]) {
    let wrong = first_wrong(rt.alloc(), steps).expect(rt, "memory");
    assert_eq!(rt; wrong, None);
}

/// The first step with another result than expected, if there is one.
pub(crate) fn first_wrong<A: Allocator + Copy>(
    alloc: A,
    steps: &[Step],
) -> Result<Option<usize>, OutOfMemory> {
    let mut buffer = SubBuffer::new(alloc, SiteId::known(2), SiteId::known(1))?;
    for (i, step) in steps.iter().enumerate() {
        if !is_right(alloc, &mut buffer, *step)? {
            return Ok(Some(i));
        }
    }
    Ok(None)
}

fn is_right<A: Allocator + Copy>(
    alloc: A,
    buffer: &mut SubBuffer<A>,
    step: Step,
) -> Result<bool, OutOfMemory> {
    match step {
        Step::Offer(prev, count, word) => {
            offers(buffer, issues(alloc, SiteId::known(1), prev, count), word)
        }
        Step::OfferEach(first, last, word) => are_each(alloc, buffer, first, last, word),
        Step::OfferForeign(prev) => {
            offers(
                buffer,
                issues(alloc, SiteId::known(3), prev, 1),
                "wrong origin",
            )
        }
        Step::OfferClosing(prev, word) => {
            offers(
                buffer,
                entry(alloc, SiteId::known(1), prev, &[close()]),
                word,
            )
        }
        Step::Arrive(prev, count, word, freed) => {
            let entry = issues(alloc, SiteId::known(1), prev, count)?;
            arrives(alloc, buffer, entry, word, freed)
        }
        Step::Answer(prevs, count) => answers(alloc, buffer, prevs, count),
        other => Ok(is_right_alone(buffer, other)),
    }
}

// Whether the entry, if it was built, has that verdict.
fn offers<A: Allocator>(
    buffer: &mut SubBuffer<A>,
    entry: Result<Entry<A>, OutOfMemory>,
    word: &'static str,
) -> Result<bool, OutOfMemory> {
    Ok(word_of(buffer, entry?) == word)
}

// The steps with no entry.
fn is_right_alone<A: Allocator>(buffer: &mut SubBuffer<A>, step: Step) -> bool {
    match step {
        Step::Pop(prev, count) => pops(buffer, prev, count),
        Step::Beat(number) => {
            buffer.beat(number.min(MAX_NUMBER));
            true
        }
        Step::Gap(numbers) => numbers_of(buffer.gap()) == numbers,
        Step::Want(numbers) => numbers_of(buffer.want()) == numbers,
        Step::WantAgain(numbers) => numbers_of(buffer.want_again()) == numbers,
        Step::Numbers { last, told, held } => {
            buffer.last() == last && buffer.told() == told && buffer.held_count() == held
        }
        Step::Is(state) => buffer.state() == state,
        _ => false,
    }
}

fn are_each<A: Allocator + Copy>(
    alloc: A,
    buffer: &mut SubBuffer<A>,
    first: u64,
    last: u64,
    word: &'static str,
) -> Result<bool, OutOfMemory> {
    for prev in first..=last {
        let entry = issues(alloc, SiteId::known(1), prev, 1)?;
        if word_of(buffer, entry) != word {
            return Ok(false);
        }
    }
    Ok(true)
}

fn pops<A: Allocator>(buffer: &mut SubBuffer<A>, prev: u64, count: u64) -> bool {
    for i in 0..count {
        match buffer.pop_ready() {
            Some(entry) => {
                if entry.prev() != prev.wrapping_add(i) {
                    return false;
                }
            }
            None => return false,
        }
    }
    buffer.pop_ready().is_none()
}

// Whether the entry has that verdict and frees this number of entries, each after the one before it.
fn arrives<A: Allocator + Copy>(
    alloc: A,
    buffer: &mut SubBuffer<A>,
    entry: Entry<A>,
    word: &'static str,
    freed: usize,
) -> Result<bool, OutOfMemory> {
    let mut verdicts = Vec::with_capacity(alloc, buffer.held_count() + 1)?;
    if entry.origin() != buffer.origin() {
        return Ok(false);
    }
    // The buffer is settled: nothing more is ready.
    let None = buffer.pop_ready() else {
        return Ok(false);
    };
    let end = entry.own();
    buffer.arrive(entry, &mut verdicts);
    Ok(match verdicts.split_first() {
        Some((first, others)) => {
            verdict_word(first) == word && others.len() == freed && are_next(others, end)
        }
        None => false,
    })
}

// Whether each is an entry that is ready, the first after that number and each other after the one before it.
fn are_next<A: Allocator>(verdicts: &[Verdict<A>], mut end: u64) -> bool {
    for verdict in verdicts {
        match verdict {
            Verdict::Ready(next) if next.prev() == end => end = next.own(),
            _ => return false,
        }
    }
    true
}

fn answers<A: Allocator + Copy>(
    alloc: A,
    buffer: &mut SubBuffer<A>,
    prevs: &[u64],
    count: usize,
) -> Result<bool, OutOfMemory> {
    let mut verdicts = Vec::with_capacity(alloc, MAX_VERDICTS)?;
    let None = buffer.pop_ready() else {
        return Ok(false);
    };
    let entries = entries_after(alloc, buffer.origin(), prevs)?;
    if entries.len() > MAX_ANSWER {
        return Ok(false);
    }
    buffer.arrive_all(entries, &mut verdicts);
    Ok(verdicts.len() == count)
}

fn entries_after<A: Allocator + Copy>(
    alloc: A,
    origin: SiteId,
    prevs: &[u64],
) -> Result<Vec<Entry<A>, A>, OutOfMemory>
    ensures { IfOk result (λ es. All (λ (e : EntryValue). e.origin ≡ origin) es.items) }
{
    let mut entries = Vec::new(alloc);
    for prev in prevs {
        entries.push(issues(alloc, origin, *prev, 1)?)?;
    }
    Ok(entries)
}

// An entry of moves that issue 1.
fn issues<A: Allocator>(
    alloc: A,
    origin: SiteId,
    prev: u64,
    count: usize,
) -> Result<Entry<A>, OutOfMemory>
    ensures { IfOk result (λ e. e.origin ≡ origin) }
{
    let moves = [issue(1); MAX_MOVES];
    entry(alloc, origin, prev, &moves[..count.min(MAX_MOVES)])
}

// An entry that cannot be built fails a test, as lack of memory does.
fn entry<A: Allocator>(
    alloc: A,
    origin: SiteId,
    prev: u64,
    moves: &[Move],
) -> Result<Entry<A>, OutOfMemory>
    ensures { IfOk result (λ e. e.origin ≡ origin) }
{
    let moves = Vec::from_slice(alloc, moves)?;
    match Entry::new(origin, prev, moves) {
        Ok(entry) => Ok(entry),
        Err(_) => Err(OutOfMemory),
    }
}

fn word_of<A: Allocator>(buffer: &mut SubBuffer<A>, entry: Entry<A>) -> &'static str {
    match buffer.offer(entry) {
        Ok(verdict) => verdict_word(&verdict),
        Err(BufferError::WrongOrigin) => "wrong origin",
    }
}

fn verdict_word<A: Allocator>(verdict: &Verdict<A>) -> &'static str {
    match verdict {
        Verdict::Ready(_) => "ready",
        Verdict::Held => "held",
        Verdict::Repeat => "repeat",
        Verdict::AfterClose => "after close",
        Verdict::Full => "full",
    }
}

// The first and the last number that a query requests.
fn numbers_of(query: Option<Query>) -> Option<(u64, u64)> {
    match query {
        Some(query) => Some((query.first(), query.last())),
        None => None,
    }
}
