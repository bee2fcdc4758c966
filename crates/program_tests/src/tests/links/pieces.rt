//! Lines of every length, with ample memory, and those that want memory where it is refused. A body that
//! gives up on some length is proved where it may want memory, and is found here.
use crate::tests::links::hello::left_without_hello;
use crate::tests::outbox::long_line;
use entry_codec::LineCutter;
use peer_links::{Piece, next_piece};
use refusing_allocator::Refusing;
use rights_types::{MAX_LINE, OutOfMemory};
use std::alloc::{Allocator, Global};
use test_kit::requests_of;

/// How many lengths of lines are tried, up to one byte more than a line may have.
const LENGTHS: usize = MAX_LINE + 1;

/// Whether a whole line was returned, and it is this one.
fn is_line<A: Allocator>(piece: &Piece<'_, A>, line: &[u8]) -> bool {
    match piece {
        Piece::Borrowed(text) => *text == line,
        Piece::Owned(text) => text.as_slice() == line,
        Piece::Long => false,
    }
}

/// Whether these bytes end a piece, all of them, and it is this line, or is too long if there is none.
fn ends_piece(cutter: &mut LineCutter, bytes: &[u8], line: Option<&[u8]>) -> bool {
    let Ok((piece, taken)) = next_piece(cutter, bytes) else {
        return false;
    };
    let Some(piece) = piece else {
        return false;
    };
    let as_expected = match line {
        Some(line) => is_line(&piece, line),
        None => matches!(piece, Piece::Long),
    };
    as_expected && taken == bytes.len()
}

/// Whether these bytes end no piece, and all were taken.
fn ends_none(cutter: &mut LineCutter, bytes: &[u8]) -> bool {
    let Ok((piece, taken)) = next_piece(cutter, bytes) else {
        return false;
    };
    piece.is_none() && taken == bytes.len()
}

/// Whether a line is returned whole, or is too long: if it arrives with one read, and with two.
fn is_given(cutter: &mut LineCutter, bytes: &[u8]) -> bool {
    let line = if bytes.len() <= MAX_LINE {
        Some(bytes)
    } else {
        None
    };
    if !ends_piece(cutter, bytes, line) {
        return false;
    }
    let (front, rest) = bytes.split_at(bytes.len() / 2);
    front.is_empty() || (ends_none(cutter, front) && ends_piece(cutter, rest, line))
}

#[test]
fn pieces_are_given_whole(rt: HostRuntime) {
    let mut cutter = LineCutter::new(rt.alloc()).expect(&rt, "memory");
    for length in [1, 2, 3, 100, 16_383, 16_384, 16_385, 40_000] {
        let line = long_line(rt.alloc(), length).expect(&rt, "memory");
        assert!(rt; is_given(&mut cutter, &line), "{length} bytes");
    }
}

/// Whether a line that arrives with two reads is returned, or refused for lack of memory only.
fn line_is_given(alloc: &Refusing<Global>) -> bool {
    let Ok(mut cutter) = LineCutter::new(alloc) else {
        return alloc.refused();
    };
    match next_piece(&mut cutter, b"B 1") {
        Ok((None, 3)) => {}
        _ => return false,
    }
    match next_piece(&mut cutter, b" 5\nB") {
        Ok((Some(piece), 3)) => is_line(&piece, b"B 1 5\n"),
        Ok(_) => false,
        Err(OutOfMemory) => alloc.refused(),
    }
}

#[test]
fn each_growth_for_a_piece_refused(rt: HostRuntime) {
    let requests = requests_of(rt.alloc(), line_is_given);
    assert_eq!(rt; requests, Some(2));
}

/// Lengths of lines: the short ones, and of the others those near the multiples of 128.
fn is_tried(length: usize) -> bool {
    length < 256 || length % 128 < 2
}

#[test]
fn first_lines_of_many_lengths(rt: HostRuntime) {
    let mut text = [b'x'; LENGTHS];
    for length in 1..=LENGTHS {
        if is_tried(length) {
            text[length - 1] = b'\n';
            let left = left_without_hello(rt.alloc(), &text[..length], 1);
            let wanted = length.saturating_sub(MAX_LINE);
            assert_eq!(rt; left, Some(wanted), "{length} bytes");
            text[length - 1] = b'x';
        }
    }
}
