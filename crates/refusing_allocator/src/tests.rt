//! Which request is refused.
use crate::Refusing;
use std::alloc::{AllocError, Allocator};
use std::test::Fail;

// More requests than any run here makes.
const MANY: u64 = 100;

fn grow_two<A: Allocator + Copy>(alloc: A) -> Result<usize, AllocError> {
    let mut evens = Vec::new(alloc);
    let mut odds = Vec::new(alloc);
    for number in 0..20u32 {
        if number % 2 == 0 {
            evens.push(number)?;
        } else {
            odds.push(number)?;
        }
    }
    Ok(evens.len() + odds.len())
}

#[test]
fn grants_what_was_granted(rt: HostRuntime) -> Result<(), Fail> {
    let refusing = Refusing::new(rt.alloc(), MANY);
    let alloc = &refusing;
    let mut numbers = Vec::new(alloc);
    numbers.push(1u8)?;
    numbers.push(2)?;
    numbers.push(3)?;
    assert_eq!(rt; numbers.as_slice(), [1, 2, 3].as_slice());
    assert_eq!(rt; grow_two(alloc)?, 20);
    assert!(rt; !refusing.refused());
    Ok(())
}

#[test]
fn each_run_meets_one_refusal_or_none(rt: HostRuntime) {
    let mut refusals = 0u64;
    for granted in 0..MANY {
        let refusing = Refusing::new(rt.alloc(), granted);
        let result = grow_two(&refusing);
        assert_eq!(rt;
            result.is_err(),
            refusing.refused(),
            "with {granted} granted"
        );
        if !refusing.refused() {
            break;
        }
        refusals = granted + 1;
    }
    // Two are the first blocks of the lists, so a growth counts too.
    assert!(rt; refusals > 2);
    assert!(rt; refusals < MANY);
}

#[test]
fn grants_all_but_the_one_after(rt: HostRuntime) {
    for granted in 0..3u64 {
        let refusing = Refusing::new(rt.alloc(), granted);
        // Each block is given back at once, which does not count.
        for _ in 0..granted {
            assert!(rt; Box::new(&refusing, 1u8).is_ok());
        }
        assert!(rt; !refusing.refused());
        assert!(rt; Box::new(&refusing, 1u8).is_err());
        assert!(rt; refusing.refused());
        assert!(rt;
            grow_two(&refusing).is_ok(),
            "after {granted} and the refusal"
        );
        assert!(rt; refusing.refused());
    }
}
