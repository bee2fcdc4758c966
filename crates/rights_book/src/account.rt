//! The sums of one log.
ghost use Rattle.std.specs.Prelude.{◌≡◌, ◌+◌, ◌<◌, ◌≤◌, length};
ghost use Rattle.rights_book.specs.Accounts.{no_account, with_move, with_moves, IsAccount};

use rights_types::{MAX_NUMBER, Move};

/// The sums over the moves of one log.
#[derive(Clone, Copy)]
pub(crate) struct Account {
    /// The number of the log's last entry.
    pub(crate) end: u64,
    pub(crate) issued: u64,
    pub(crate) spent: u64,
    /// What was given to other sites.
    pub(crate) given: u64,
    /// What was reclaimed. It has 128 bits, since nothing here bounds what another site reclaims.
    pub(crate) back: u128,
    /// Whether the log ends in a closing move.
    pub(crate) closed: bool,
}

impl Account {
    /// The account of an empty log.
    pub(crate) fn new() -> Account
        ensures { result ≡ no_account }
    {
        Account {
            end: 0,
            issued: 0,
            spent: 0,
            given: 0,
            back: 0,
            closed: false,
        }
    }

    /// Adds the moves of the log's next entry.
    pub(crate) fn add(&mut self, moves: &[Move])
        requires valid { IsAccount self.old }
        requires number { self.old.end + length moves.now ≤ MAX_NUMBER }
        ensures added { self.new ≡ with_moves self.old moves.now }
        ensures valid { IsAccount self.new }
    {
        for m in moves {
            self.add_move(m);
        }
    }

    fn add_move(&mut self, m: &Move)
        requires valid { IsAccount self.old }
        requires number { self.old.end < MAX_NUMBER }
        ensures added { self.new ≡ with_move self.old m.now }
        ensures valid { IsAccount self.new }
    {
        self.end += 1;
        match m {
            Move::Issue(amount) => self.issued += amount.value(),
            Move::Spend(amount) => self.spent += amount.value(),
            Move::Grant {
                peer: _,
                amount,
                ask: _,
            } => self.given += amount.value(),
            Move::Give { peer: _, amount } => self.given += amount.value(),
            Move::TakeBack { peer: _, amount } => self.back += amount.value() as u128,
            Move::Close => self.closed = true,
            Move::CloseAt(_) => self.closed = true,
        }
    }
}
