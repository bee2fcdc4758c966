//! Copies of entries of every size, with memory and without.
use rights_types::{Entry, MAX_MOVES, Move, OutOfMemory};
use std::alloc::{AllocGlobal, Global};
use std::test::Fail;
use test_kit::{entry, is_entry, longest_close, move_of_kind, requests_of};

// This number of moves, of each kind in turn.
fn moves_of_each_kind(alloc: Global, count: usize) -> Result<Vec<Move>, Fail> {
    let mut moves = Vec::new(alloc);
    for kind in 0..count as u64 {
        moves.push(move_of_kind(kind % 5))?;
    }
    Ok(moves)
}

// The same with a closing move as the last one.
fn closing_moves(alloc: Global, count: usize) -> Result<Vec<Move>, Fail> {
    let mut moves = moves_of_each_kind(alloc, count)?;
    moves.pop();
    moves.push(longest_close()?)?;
    Ok(moves)
}

// Whether a copy equals the entry, made with one memory request, and lacks memory if that is refused.
fn copies_with_one_request(rt: &impl AllocGlobal, entry: &Entry) -> bool {
    let copied = requests_of(rt.alloc(), |memory| {
        match entry.clone_in(memory) {
            Ok(copy) => !memory.refused() && is_entry(&copy, 1, entry.prev(), entry.moves()),
            Err(OutOfMemory) => memory.refused(),
        }
    });
    copied == Some(1)
}

/// Entries of 1 to 16 moves, and each with a closing move as its last.
#[test]
fn copies_of_every_size(rt: HostRuntime) -> Result<(), Fail> {
    for count in 1..=MAX_MOVES {
        let open = entry(rt.alloc(), 1, 7, &moves_of_each_kind(rt.alloc(), count)?)?;
        assert!(rt; copies_with_one_request(&rt, &open), "{count} moves");
        let closing = entry(rt.alloc(), 1, 7, &closing_moves(rt.alloc(), count)?)?;
        assert!(rt;
            closing.closes() && copies_with_one_request(&rt, &closing),
            "{count} moves, closing"
        );
    }
    Ok(())
}
