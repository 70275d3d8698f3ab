// What an order comes to once it has traded.
ghost use Rattle.std.specs.Prelude.{◌≡◌};
ghost use Rattle.judge.specs.Dispositions.{disposition_number};

// The disposition of an order: it is filled, or it rests at its limit; or what is left of it is cancelled, that of a
// market order or of one for now, of a limit beyond the drill price, or of one at or beyond the away opposite quote.
#[derive(Clone, Copy, PartialEq, Eq)]
pub enum Disposition {
    Filled = 0,
    Rests = 1,
    Unfilled = 2,
    BeyondDrill = 3,
    AtAway = 4,
}

impl Disposition {
    // The number that stands for it.
    pub fn number(self) -> u32
        ensures { result ≡ disposition_number self }
    {
        self as u32
    }
}
