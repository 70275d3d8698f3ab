// What a call or an entry is refused for, and the number of each reason.
ghost use Rattle.std.specs.Prelude.{◌≡◌};
ghost use Rattle.entry.specs.Refusals.{refusal_number, turn_down_number};

// Why a call is refused.
#[derive(Clone, Copy, PartialEq, Eq)]
pub enum Refusal {
    NoSuchTenant = 1,
    Malformed = 2,
    Miscounted = 3,
    LaneFull = 4,
    NothingWaits = 5,
    FewRecords = 6,
    OutOfRange = 7,
    TooHigh = 8,
    AlreadyOpen = 9,
    NoValidPrice = 20,
    NothingSet = 21,
    TurnsUsedUp = 35,
}

impl Refusal {
    // The number that stands for it.
    pub fn number(self) -> u32
        ensures { result ≡ refusal_number self }
    {
        self as u32
    }
}

// Why an entry is turned down.
#[derive(Clone, Copy, PartialEq, Eq)]
pub enum TurnDown {
    NotYet = 10,
    OffGrid = 11,
    AtStrike = 12,
    NoOffer = 13,
    NoBid = 14,
    TooWide = 15,
    FarPrice = 16,
    NoRoom = 17,
    GivenOut = 18,
    UsedUp = 19,
    NeverGiven = 22,
}

impl TurnDown {
    // The number that stands for it.
    pub fn number(self) -> u32
        ensures { result ≡ turn_down_number self }
    {
        self as u32
    }
}
