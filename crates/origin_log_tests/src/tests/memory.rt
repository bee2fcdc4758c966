//! Memory requests that are refused, and requests that are never made.
use crate::tests::calls::Put;
use crate::tests::scripts::{go_on, plays};
use crate::tests::texts::{LONGEST, put_append, put_entry};
use linked_list_allocator::LocalHeap;
use origin_log::OriginLog;
use refusing_allocator::Refusing;
use std::alloc::{AllocError, AllocGlobal};
use std::process::Abort;
use test_kit::{fill, requests_of, site};

// The longest entries of site 1: the first 147 lines fill a block.
const IN_A_BLOCK: u64 = 147;

const LONG: u64 = 160;

// Appends the longest entries from one on.
fn put_long(script: &mut String, from: u64, to: u64) -> Put {
    for entry in from..to {
        put_append(script, entry.saturating_mul(16), LONGEST)?;
    }
    Ok(())
}

fn put_reads(script: &mut String) -> Put {
    for entry in 0..LONG {
        fill(script, "entry $1 > ", &[entry])?;
        put_entry(script, 1, entry.saturating_mul(16), LONGEST)?;
        script.push('\n')?;
    }
    script.push_str("line 160 > nothing\nend > 160 entries, the last 2560, a beat 2560")
}

// The scripts of a log that needs a second block.
#[derive(Drop)]
struct Scripts {
    // While one block suffices.
    first: String,
    rest: String,
    reads: String,
}

fn put_scripts(scripts: &mut Scripts) -> Put {
    put_long(&mut scripts.first, 0, IN_A_BLOCK)?;
    put_long(&mut scripts.rest, IN_A_BLOCK, LONG)?;
    put_reads(&mut scripts.reads)
}

fn long_scripts(rt: &(impl Abort + AllocGlobal)) -> Scripts {
    let mut scripts = Scripts {
        first: String::new(rt.alloc()),
        rest: String::new(rt.alloc()),
        reads: String::new(rt.alloc()),
    };
    put_scripts(&mut scripts).expect(rt, "memory");
    scripts
}

// The log goes on with these scripts. Returns how many bytes the heap gave while one block sufficed.
fn bytes_of<'h>(
    rt: &(impl Abort + AllocGlobal),
    heap: &LocalHeap,
    memory: &Refusing<&'h LocalHeap>,
    log: &mut OriginLog<&Refusing<&'h LocalHeap>>,
    scripts: &Scripts,
) -> usize {
    go_on(rt, memory, log, &scripts.first);
    let used = heap.used();
    go_on(rt, memory, log, &scripts.rest);
    assert!(rt; heap.used() > 2 * 65_536);
    // A log that met no refusal is not read further, since reading requests memory too.
    if memory.refused() {
        go_on(rt, memory, log, &scripts.reads);
    }
    used
}

fn bytes_of_a_block(
    rt: &(impl Abort + AllocGlobal),
    heap: &LocalHeap,
    memory: &Refusing<&LocalHeap>,
    scripts: &Scripts,
) -> usize {
    let mut log = OriginLog::new(memory, site(1));
    bytes_of(rt, heap, memory, &mut log, scripts)
}

// How many requests the appends make, if they fit into a block whichever is refused.
fn requests_of_a_block(
    rt: &(impl Abort + AllocGlobal),
    heap: &LocalHeap,
    scripts: &Scripts,
) -> Option<u64> {
    let ample = bytes_of_a_block(rt, heap, &Refusing::new(heap, u64::MAX), scripts);
    assert!(rt; ample > 65_536 && ample < 2 * 65_536);
    requests_of(
        heap,
        |memory| bytes_of_a_block(rt, heap, memory, scripts) == ample,
    )
}

/// Each request of an append refused in turn, from the first block to the second. A refused append leaves
/// no byte in its block: as many lines as before still fit.
#[test]
fn each_growth_of_an_append_refused(rt: HostRuntime) {
    let heap = LocalHeap::new(rt.alloc(), 1 << 18).expect(&rt, "a heap");
    assert!(rt; requests_of_a_block(&rt, &heap, &long_scripts(&rt)) > Some(4));
}

const THREE: &str = "\
append I:10 > 1
append S:1 S:1 S:1 > 4
append S:2 > 5
";

const THREE_LINES: &str = "\
append I:10 > 1
append S:1 S:1 S:1 > 4
append S:2 > 5
line 0 > E 1 0 1 I:10
line 1 > E 1 1 4 S:1 S:1 S:1
line 2 > E 1 4 5 S:2
";

const THREE_FOUND: &str = "\
append I:10 > 1
append S:1 S:1 S:1 > 4
append S:2 > 5
find Q 2 1 1 5 > found;E 1 0 1 I:10;E 1 1 4 S:1 S:1 S:1;E 1 4 5 S:2
";

/// Lines are returned when no memory request would be granted.
#[test]
fn a_line_takes_no_memory(rt: HostRuntime) {
    let made = plays(&rt, site(1), THREE);
    assert!(rt; plays(&rt, site(1), THREE_LINES) == made);
    assert!(rt; plays(&rt, site(1), THREE_FOUND) > made);
}

// Appends 33 short entries: for the last of them the index doubles its capacity.
fn put_short(script: &mut String) -> Put {
    for own in 1..=33u64 {
        fill(script, "append I:1 > $1\n", &[own])?;
    }
    Ok(())
}

// Appends 31 more of the longest entries, which fill the index's capacity.
fn put_filling(script: &mut String) -> Put {
    for entry in 0..31u64 {
        put_append(script, entry.saturating_mul(16).saturating_add(33), LONGEST)?;
    }
    Ok(())
}

// How many requests the short ones make; then the others too; and then one more.
fn requests_of_fitting(
    rt: &(impl Abort + AllocGlobal),
    script: &mut String,
) -> Result<[u64; 3], AllocError> {
    put_short(script)?;
    let short = plays(rt, site(1), script);
    put_filling(script)?;
    let all = plays(rt, site(1), script);
    script.push_str("append I:1 > 530\n")?;
    Ok([short, all, plays(rt, site(1), script)])
}

/// While the index and the last block have capacity, an append requests no memory, however long its line is: the
/// draft has room for any.
#[test]
fn an_append_that_fits_makes_no_request(rt: HostRuntime) {
    let mut script = String::new(rt.alloc());
    let [short, all, more] = requests_of_fitting(&rt, &mut script).expect(&rt, "memory");
    assert!(rt; short == all && all < more);
}
