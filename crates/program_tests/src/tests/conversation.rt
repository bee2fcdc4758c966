//! A conversation whose handler cannot go on.
use line_streams::{ConversationError, Goes, LineHandler, Replies, answer_lines};
use rights_types::OutOfMemory;
use std::alloc::{Allocator, Global};
use test_kit::Slow;

/// A handler that can go on or not, and ends the conversation at its first line.
#[derive(Drop)]
struct Ending {
    goes_on: bool,
}

impl LineHandler for Ending {
    ghost answers = { λ _ _ _ _. Unit {0} };

    ghost fails = { λ _ _. Unit {0} };

    fn can_go_on(&self) -> bool {
        self.goes_on
    }

    fn answer<A: Allocator>(
        &mut self,
        _text: Option<&[u8]>,
        _replies: &mut Replies<A>,
    ) -> Result<Goes, OutOfMemory> {
        Ok(Goes::Ends)
    }
}

/// How many bytes of one line are left in the reader, if the conversation ends as this says.
fn left(alloc: Global, goes_on: bool, error: Option<ConversationError>) -> Option<usize> {
    let mut handler = Ending { goes_on };
    let mut reader: &[u8] = b"line\n";
    let mut writer = Slow {
        text: Vec::new(alloc),
        step: 1,
    };
    let ended = answer_lines(alloc, &mut handler, &mut reader, &mut writer);
    if ended.err() == error {
        Some(reader.len())
    } else {
        None
    }
}

#[test]
fn a_handler_that_cannot_go_on_ends_before_a_read(rt: HostRuntime) {
    assert_eq!(rt; left(rt.alloc(), true, None), Some(0));
    let error = Some(ConversationError::OutOfMemory);
    assert_eq!(rt; left(rt.alloc(), false, error), Some(5));
}
