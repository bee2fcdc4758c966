//! How much of its log a site reads to take back.
use crate::tests::sites::Sites;
use refusing_allocator::Refusing;
use std::alloc::AllocGlobal;
use std::process::Abort;

// Whether this number of requests suffices for site 1, which gives a right to site 2 with each of its entries, and
// then receives site 2's closing entry, if its number is passed.
fn suffice(
    rt: &(impl Abort + AllocGlobal),
    requests: u64,
    entries: u64,
    closing: Option<u64>,
) -> bool {
    let memory = Refusing::new(rt.alloc(), requests);
    let mut sites = Sites::new(rt, &memory, 2);
    for _ in 0..entries {
        sites.say(rt, "post 1 I:1 R:2:1");
    }
    if let Some(number) = closing {
        sites.call(rt, "hear 1 E 2 0 1 K:$1:0", &[number]);
    }
    !memory.refused()
}

// How many requests suffice for it; fewer than 8,192.
fn requests_for(rt: &(impl Abort + AllocGlobal), entries: u64, closing: Option<u64>) -> u64 {
    let mut least = 0u64;
    let mut step = 4096u64;
    for _ in 0..13u8 {
        let fewer = least.saturating_add(step).saturating_sub(1);
        if !suffice(rt, fewer, entries, closing) {
            least = least.saturating_add(step);
        }
        step /= 2;
    }
    least
}

/// A site reads the entries beyond the frontier and one more, each with one memory request, however many come
/// before. The entry that takes back fits into memory that the others have made.
#[test]
fn only_what_lies_beyond_is_read(rt: HostRuntime) {
    for entries in [5u64, 1000] {
        let written = requests_for(&rt, entries, None);
        for beyond in 1..=4u64 {
            let number = entries.saturating_sub(beyond).saturating_mul(2);
            let requests = requests_for(&rt, entries, Some(number));
            let wanted = written.saturating_add(beyond).saturating_add(1);
            assert!(rt; requests == wanted, "{beyond} of {entries}");
        }
    }
}
