//! Ports that record what they receive, and intakes of site 2.
ghost use Rattle.std.specs.Prelude.{◌≡◌, [], false, IfOk};
ghost use Rattle.entry_codec.specs.Pieces.{IsLine};

use apply_lanes::{Intake, Outlet, lane};
use inbound::Inbound;
use peer_links::{DeskMessage, Port};
use rights_types::{OutOfMemory, SiteId};
use std::alloc::Global;
use std::sync::Wait;
use sub_buffer::State;

/// A port that records what it receives: the letter of a message, a line, and after each line `n` or `b`,
/// for normal or buffering, with the count of entries held.
#[derive(Drop)]
pub(crate) struct Noting {
    pub(crate) text: Vec<u8>,
}

impl Port for Noting {
    ghost accepts = { λ _. Unit {0} };

    ghost hears = { λ _ _ _. Unit {0} };

    fn message<R: Wait>(&mut self, _rt: &R, message: DeskMessage) -> Result<(), OutOfMemory> {
        let note: &[u8] = match message {
            DeskMessage::Query(_) => b"Q\n",
            DeskMessage::Ask(_) => b"W\n",
            DeskMessage::Deny(_) => b"D\n",
        };
        self.text.extend_from_slice(note)?;
        Ok(())
    }

    fn line<R: Wait>(&mut self, _rt: &R, line: Vec<u8>)
        requires { IsLine line.items }
    {
        let _ = self.text.extend_from_slice(&line);
    }

    fn seen<R: Wait>(&mut self, _rt: &R, state: State, held: usize) {
        let note: &[u8] = match state {
            State::Normal => b"n",
            State::Buffering => b"b",
        };
        let _ = self.text.extend_from_slice(note);
        let digit: &[u8] = match held {
            0 => b"0\n",
            1 => b"1\n",
            2 => b"2\n",
            _ => b"+\n",
        };
        let _ = self.text.extend_from_slice(digit);
    }
}

/// A port that has no memory for a message.
#[derive(Drop)]
pub(crate) struct Lacking;

impl Port for Lacking {
    ghost accepts = { λ _. Unit {0} };

    ghost hears = { λ _ _ _. Unit {0} };

    fn message<R: Wait>(&mut self, _rt: &R, _message: DeskMessage) -> Result<(), OutOfMemory> {
        Err(OutOfMemory)
    }

    fn line<R: Wait>(&mut self, _rt: &R, _line: Vec<u8>) {}

    fn seen<R: Wait>(&mut self, _rt: &R, _state: State, _held: usize) {}
}

/// The intake of site 2 for site 1, and the outlet of its lane.
pub(crate) fn link_in(alloc: Global) -> Result<(Intake, Outlet), OutOfMemory>
    ensures { IfOk result (λ r. (r.0.finished ≡ false) × (r.1.taken ≡ [])) }
{
    let inbound = Inbound::new(alloc, SiteId::known(2), SiteId::known(1), 2)?;
    let (inlet, outlet) = lane(alloc, 32)?;
    Ok((Intake::new(inbound, inlet), outlet))
}
