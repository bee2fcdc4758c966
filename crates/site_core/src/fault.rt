//! Why a desk refuses.
ghost use Rattle.std.specs.Prelude.{◌≡◌};
ghost use Rattle.site_core.specs.declared.fault.DeskError.TheVariants.{OutOfMemory as NoMemory};
ghost use Rattle.site_core.specs.declared.fault.ReplayError.TheVariants.{NotPermitted as Denied};

use rights_types::OutOfMemory;

/// Why a call of a desk is refused. The desk is unchanged. Each call checks its causes in an order of its own.
#[derive(Clone, Copy, Debug, PartialEq, Eq)]
pub enum DeskError {
    /// The site has closed: it no longer writes or spends.
    Closed,
    /// There are no moves, or more than 16.
    BadCount,
    /// One of the moves answers an ask, closes or reclaims, which no caller may write directly.
    BadMove,
    /// The amount is 0 or above 10^9.
    BadAmount,
    /// The system does not have the named site.
    NoSuchSite,
    /// The named site is this site itself.
    SameSite,
    /// Rights would go to a site whose closing entry was applied here.
    PeerClosed,
    /// The own number would exceed 999,999,900; the numbers above are reserved for closing and reclaiming.
    LogFull,
    /// In order, a move spends or gives more than is held after the moves before it.
    Short,
    /// A memory request was refused.
    OutOfMemory,
    /// Waiting spends and unread outcomes take all 32 slots, or no ticket is left.
    QueueFull,
    /// A spend waits. The site can close once it is served or has expired.
    QueueBusy,
    /// An heir is named, and more than 10^9 rights are held: one move cannot give them. Give or spend some first.
    HeldTooMuch,
    /// The time is less than that of an earlier expiry.
    TimeWentBack,
}

impl From<OutOfMemory> for DeskError {
    ghost from_gives = { λ _ e. e ≡ NoMemory };

    fn from(_error: OutOfMemory) -> DeskError {
        DeskError::OutOfMemory
    }
}

/// Why a record of a journal is not replayed: the journal is damaged, or that of another site. The desk is unchanged.
#[derive(Clone, Copy, Debug, PartialEq, Eq)]
pub enum ReplayError {
    /// The entry is not the next one of its site's log, or the ask is not the next one of this site to a peer.
    OutOfOrder,
    /// The entry grants an ask that was granted before, or one from before that.
    GrantedBefore,
    /// The entry closes, but with another frontier, gift or amount than those with which this site would close.
    OtherClosing,
    /// The desk refuses the step for this cause.
    NotPermitted(DeskError),
    /// The message is neither an entry nor an ask.
    NoRecord,
}

impl From<DeskError> for ReplayError {
    ghost from_gives = { λ error e. e ≡ Denied error };

    fn from(error: DeskError) -> ReplayError {
        ReplayError::NotPermitted(error)
    }
}

impl From<OutOfMemory> for ReplayError {
    ghost from_gives = { λ _ e. e ≡ Denied NoMemory };

    fn from(_error: OutOfMemory) -> ReplayError {
        ReplayError::NotPermitted(DeskError::OutOfMemory)
    }
}
