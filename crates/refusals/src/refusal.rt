//! The refusals, their names, and their places among the counters.
ghost use Rattle.std.specs.Prelude.{◌≡◌, ◌<◌, ◌≤◌, length, get_or};
ghost use Rattle.refusals.specs.Refusals.{all_refusals, refusal_name};

/// How many refusals there are.
pub const REFUSAL_COUNT: usize = 20;

/// All refusals, in the order in which they are counted.
pub const REFUSALS: [Refusal; REFUSAL_COUNT] = [
    Refusal::Closed,
    Refusal::BadCount,
    Refusal::BadMove,
    Refusal::BadAmount,
    Refusal::NoSuchSite,
    Refusal::SameSite,
    Refusal::PeerClosed,
    Refusal::LogFull,
    Refusal::Short,
    Refusal::OutOfMemory,
    Refusal::QueueFull,
    Refusal::QueueBusy,
    Refusal::HeldTooMuch,
    Refusal::TimeWentBack,
    Refusal::BadCommand,
    Refusal::BadDeadline,
    Refusal::OwnClock,
    Refusal::BadKey,
    Refusal::KeyRefused,
    Refusal::KeyReused,
];

/// Why a line of a client is refused: by the desk, except for the last six.
#[derive(Clone, Copy, Debug, PartialEq, Eq)]
pub enum Refusal {
    Closed,
    BadCount,
    BadMove,
    BadAmount,
    NoSuchSite,
    SameSite,
    PeerClosed,
    LogFull,
    Short,
    OutOfMemory,
    QueueFull,
    QueueBusy,
    HeldTooMuch,
    TimeWentBack,
    /// The line spells no command.
    BadCommand,
    /// The deadline of a spend is too far ahead of the site's clock.
    BadDeadline,
    /// A client may not tick, since the site ticks by its own clock.
    OwnClock,
    /// The key is no key, or the line may have none.
    BadKey,
    /// The site remembers no keys.
    KeyRefused,
    /// The key is that of another command.
    KeyReused,
}

impl Refusal {
    /// The NAME of the reply `error NAME`, at most 16 bytes.
    pub fn name(self) -> &'static [u8]
        ensures name { result.now ≡ refusal_name self }
        ensures short { length result.now ≤ 16 }
    {
        match self {
            Refusal::Closed => b"Closed",
            Refusal::BadCount => b"BadCount",
            Refusal::BadMove => b"BadMove",
            Refusal::BadAmount => b"BadAmount",
            Refusal::NoSuchSite => b"NoSuchSite",
            Refusal::SameSite => b"SameSite",
            Refusal::PeerClosed => b"PeerClosed",
            Refusal::LogFull => b"LogFull",
            Refusal::Short => b"Short",
            Refusal::OutOfMemory => b"OutOfMemory",
            Refusal::QueueFull => b"QueueFull",
            Refusal::QueueBusy => b"QueueBusy",
            Refusal::HeldTooMuch => b"HeldTooMuch",
            Refusal::TimeWentBack => b"TimeWentBack",
            Refusal::BadCommand => b"BadCommand",
            Refusal::BadDeadline => b"BadDeadline",
            Refusal::OwnClock => b"OwnClock",
            Refusal::BadKey => b"BadKey",
            Refusal::KeyRefused => b"KeyRefused",
            Refusal::KeyReused => b"KeyReused",
        }
    }

    /// Its place in `REFUSALS`.
    pub fn index(self) -> usize
        ensures low { result < REFUSAL_COUNT }
        ensures place { get_or all_refusals result Refusal.OwnClock ≡ self }
    {
        match self {
            Refusal::Closed => 0,
            Refusal::BadCount => 1,
            Refusal::BadMove => 2,
            Refusal::BadAmount => 3,
            Refusal::NoSuchSite => 4,
            Refusal::SameSite => 5,
            Refusal::PeerClosed => 6,
            Refusal::LogFull => 7,
            Refusal::Short => 8,
            Refusal::OutOfMemory => 9,
            Refusal::QueueFull => 10,
            Refusal::QueueBusy => 11,
            Refusal::HeldTooMuch => 12,
            Refusal::TimeWentBack => 13,
            Refusal::BadCommand => 14,
            Refusal::BadDeadline => 15,
            Refusal::OwnClock => 16,
            Refusal::BadKey => 17,
            Refusal::KeyRefused => 18,
            Refusal::KeyReused => 19,
        }
    }

    /// The refusal at this place.
    pub fn at(index: usize) -> Refusal
        requires { index < REFUSAL_COUNT }
        ensures { result ≡ get_or all_refusals index Refusal.OwnClock }
    {
        REFUSALS[index]
    }
}
