//! Calls with each memory request refused in turn.

use refusing_allocator::Refusing;
use std::alloc::Allocator;

/// A test that makes more requests than this is assumed never to end.
const MANY: u64 = 100_000;

/// Makes the run with its first memory request refused, then with its second, and so on, until a run meets no
/// refusal, and returns how many requests that one made. A run gets the allocator, and returns whether it had the
/// expected result: lack of memory if `refused` holds of the allocator, else what it has with ample memory. `None` if
/// some run had not.
pub fn requests_of<A: Allocator + Copy, F: FnMut(&Refusing<A>) -> bool>(
    alloc: A,
    mut run: F,
) -> Option<u64>
    requires { F.IsAlwaysCallable run }
{
    for granted in 0..MANY {
        let refusing = Refusing::new(alloc, granted);
        if !run(&refusing) {
            return None;
        }
        if !refusing.refused() {
            return Some(granted);
        }
    }
    None
}
