//! The asks between a manager's site and one other.
ghost use Rattle.std.specs.Prelude.{◌≡◌, ◌<◌};
ghost use Rattle.transfer_manager.specs.Managers.{no_asks, amount_of, with_ask, with_ended};

use rights_types::{Amount, AskNumber, MAX_ASK};

/// What a manager keeps of the asks to one peer, and from it.
#[derive(Clone, Copy)]
pub(crate) struct PeerAsks {
    /// The number of the last ask to the peer; 0 before the first ask.
    pub(crate) last_ask: u64,
    /// The amount of the last ask, as long as it is outstanding.
    pub(crate) outstanding: Option<Amount>,
    /// The number of the peer's last ask that was answered; 0 before the first ask.
    pub(crate) last_answered: u64,
    /// Whether that ask was granted.
    pub(crate) granted: bool,
}

impl PeerAsks {
    /// No ask yet.
    pub(crate) fn new() -> PeerAsks
        ensures { result ≡ no_asks }
    {
        PeerAsks {
            last_ask: 0,
            outstanding: None,
            last_answered: 0,
            granted: false,
        }
    }

    /// The rights that the peer was asked for and has not answered yet.
    pub(crate) fn outstanding_amount(&self) -> u64
        ensures { result ≡ amount_of self.now.outstanding }
    {
        match self.outstanding {
            Some(amount) => amount.value(),
            None => 0,
        }
    }

    /// Asks the peer for this amount, under the next number.
    pub(crate) fn ask(&mut self, amount: Amount)
        requires { self.old.last_ask < MAX_ASK }
        ensures { self.new ≡ with_ask self.old amount }
    {
        self.last_ask += 1;
        self.outstanding = Some(amount);
    }

    /// Ends the outstanding ask, if it has this number.
    pub(crate) fn end(&mut self, ask: AskNumber)
        ensures { self.new ≡ with_ended self.old ask }
    {
        if self.last_ask == ask.value() {
            self.outstanding = None;
        }
    }
}
