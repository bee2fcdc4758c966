//! The lines that are measured.

use std::alloc::{AllocError, Global};

/// Lines of one kind.
#[derive(Drop)]
pub(crate) struct Load {
    pub(crate) name: &'static str,
    pub(crate) lines: Vec<Vec<u8>>,
}

const MOVES: [&str; 16] = [
    " I:123456789",
    " S:25000",
    " G:12:1234567:4567",
    " R:7:123456789",
    " S:1",
    " G:2:999999999:123456",
    " R:16:12345",
    " S:123456789",
    " G:16:12345678:45678",
    " R:7:123456789",
    " S:77000",
    " G:9:1234567:1000000",
    " S:123456789",
    " R:5:123456789",
    " G:1:87654321:123456",
    " S:9999999",
];

/// Lines of entries with 1 to 16 moves.
pub(crate) fn entries(alloc: Global) -> Result<Load, AllocError> {
    let mut lines = Vec::new(alloc);
    for (index, _) in MOVES.iter().enumerate() {
        let count = index + 1;
        let mut line = format!(in alloc; "E 3 123456700 {}", 123_456_700 + count)?;
        for field in &MOVES[..count] {
            line.push_str(field)?;
        }
        line.push_str("\n")?;
        lines.push(line.into_bytes())?;
    }
    Ok(Load {
        name: "entries",
        lines,
    })
}

/// Lines of answers with 16 entries of one move each.
pub(crate) fn answers(alloc: Global) -> Result<Load, AllocError> {
    let mut lines = Vec::new(alloc);
    for first in 0..16usize {
        let mut line = format!(in alloc; "A 3 12")?;
        for (index, _) in MOVES.iter().enumerate() {
            let prev = 1000 * first + index;
            let own = prev + 1;
            line.push_str(&format!(in alloc; ";E 3 {prev} {own} S:5{first}")?)?;
        }
        line.push_str("\n")?;
        lines.push(line.into_bytes())?;
    }
    Ok(Load {
        name: "answers",
        lines,
    })
}

/// Lines of messages without entries.
pub(crate) fn short_kinds(alloc: Global) -> Result<Load, AllocError> {
    let texts = [
        "Q 2 1 123456 123471\n",
        "B 1 123456789\n",
        "W 2 16 4567 1000000\n",
        "D 16 2 4567\n",
        "H 12\n",
    ];
    let mut lines = Vec::new(alloc);
    for text in &texts {
        lines.push(text.as_bytes().to_vec(alloc)?)?;
    }
    Ok(Load {
        name: "short kinds",
        lines,
    })
}
