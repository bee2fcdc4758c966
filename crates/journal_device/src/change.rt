//! A change of a file that no sync followed, and what a crash leaves of it.
ghost use Rattle.std.specs.Prelude.{◌≡◌, ◌+◌, ◌++◌, ◌∷◌, length, take, drop, OnOk, OnErr, if◌then◌else◌, slice_index};
ghost use Rattle.journal_device.specs.Changes.{after_change, KeepsChange};
ghost use Rattle.journal_device.specs.Images.{came, come};

use std::alloc::{AllocError, Allocator};

/// A change of the file that no sync followed.
#[derive(Drop)]
pub(crate) enum Change<A: Allocator> {
    Write { at: usize, bytes: Vec<u8, A> },
    Cut { len: usize },
}

impl<A: Allocator> Change<A> {
    /// Makes of a file what a crash may leave of it after this change. Bit `i` of `written` says whether byte `i` of a
    /// write came to the disk; those past 64 did. Of the possible lengths, the file gets the one nearest to `len`.
    pub(crate) fn put(
        &self,
        image: &mut Vec<u8, A>,
        written: u64,
        len: usize,
    ) -> Result<(), AllocError>
        ensures { OnOk result (image.new.items ≡ after_change written len image.old.items self.now) }
    {
        match self {
            Change::Write { at, bytes } => {
                let shortest = image.len();
                write_some(image, *at, bytes.as_slice(), written)?;
                image.truncate(len.max(shortest));
            }
            Change::Cut { len: least } => image.truncate(len.max(*least)),
        }
        Ok(())
    }
}

/// Keeps a change. Without memory none is kept.
pub(crate) fn keep<A: Allocator>(
    changes: &mut Vec<Change<A>, A>,
    change: Change<A>,
) -> Result<(), AllocError>
    ensures kept { OnOk result (KeepsChange changes.old.items change changes.new.items) }
    ensures err { OnErr result (changes.new.items ≡ changes.old.items) }
{
    changes.push(change)?;
    Ok(())
}

// Writes those bytes that came. Behind the old end the others are zero.
fn write_some<A: Allocator>(
    image: &mut Vec<u8, A>,
    at: usize,
    bytes: &[u8],
    written: u64,
) -> Result<(), AllocError>
    ensures { OnOk result (image.new.items ≡ take at image.old.items ++ come written 0 bytes.now (drop at image.old.items)) }
{
    for (i, byte) in bytes.iter().enumerate() {
        write_byte(image, at.saturating_add(i), *byte, has_come(written, i))?;
    }
    Ok(())
}

fn has_come(written: u64, i: usize) -> bool
    ensures { result ≡ came written i }
{
    i >= 64 || (written >> (i as u64 % 64)) & 1 == 1
}

// Behind the end a byte that did not come is zero.
fn write_byte<A: Allocator>(
    image: &mut Vec<u8, A>,
    at: usize,
    byte: u8,
    has_come: bool,
) -> Result<(), AllocError>
    ensures { OnOk result (image.new.items ≡ take at image.old.items
        ++ (if has_come then byte else slice_index image.old.items at) ∷ drop (at + 1) image.old.items) }
{
    match image.get_mut(at) {
        Some(old) if has_come => *old = byte,
        Some(_) => {}
        None => image.push(if has_come { byte } else { 0 })?,
    }
    Ok(())
}
