// The three price grids: a step below the turn, and a step from the turn on.
ghost use Rattle.std.specs.Prelude.{◌≡◌, ◌+◌, ◌-◌};
ghost use Rattle.units.specs.Units.{cents};
ghost use Rattle.units.specs.Grid.{stepping, grid_of, lowest_of, step_of, on_grid, highest_on, lowest_on};

use crate::Cents;

// A grid is its two steps, so one proof over the steps serves all three.
#[derive(Clone, Copy)]
pub struct Grid {
    pub low: Cents,
    pub high: Cents,
}

impl Grid {
    // From this price on, in cents, the higher step holds.
    pub const TURN: u32 = 300;

    pub const CENT: u32 = 1;

    pub const NICKEL: u32 = 5;

    pub const DIME: u32 = 10;

    // The grid with a step below the turn and a step from it on.
    fn stepping(low: u32, high: u32) -> Grid
        ensures { result ≡ stepping low high }
    {
        Grid {
            low: Cents(low),
            high: Cents(high),
        }
    }

    // The grid of a number, or none: only 1, 2 and 3 are grids.
    pub fn of(number: u32) -> Option<Grid>
        ensures { result ≡ grid_of number }
    {
        match number {
            1 => Some(Grid::stepping(Grid::CENT, Grid::CENT)),
            2 => Some(Grid::stepping(Grid::CENT, Grid::NICKEL)),
            3 => Some(Grid::stepping(Grid::NICKEL, Grid::DIME)),
            _ => None,
        }
    }

    // The lowest step of the grid, at which a converted order rests.
    pub fn lowest(self) -> Cents
        ensures { result ≡ lowest_of self }
    {
        self.low
    }

    // The step at a price.
    pub fn step(self, price: Cents) -> Cents
        ensures { result ≡ step_of self price }
    {
        if price.0 < Self::TURN {
            self.low
        } else {
            self.high
        }
    }

    // Whether the step at the price divides it; a step of 0 divides 0 alone. The steps of the three grids stand apart:
    // the remainder by a constant takes no division.
    pub fn on(self, price: Cents) -> bool
        ensures { result ≡ on_grid self price }
    {
        let by = self.step(price).0;
        match by {
            Grid::CENT => true,
            Grid::NICKEL => price.0 % Grid::NICKEL == 0,
            Grid::DIME => price.0 % Grid::DIME == 0,
            0 => price.0 == 0,
            _ => price.0 % by == 0,
        }
    }

    // The highest price of the grid at or below a price, 0 where there is none of at least 1. The prices are tried from
    // above: on the three grids a step is at most ten cents.
    pub fn at_or_below(self, price: Cents) -> Cents
        ensures { result ≡ cents (highest_on self price.0) }
    {
        for p in (1..=price.0).rev() {
            if self.on(Cents(p)) {
                return Cents(p);
            }
        }
        Cents(0)
    }

    // The lowest price of the grid at or above a price and at most another, 0 where there is none. The prices are tried
    // from below, and none above the most is made.
    pub fn at_or_above(self, price: Cents, most: Cents) -> Cents
        ensures { result ≡ cents (lowest_on self (most.0 + 1 - price.0) price.0) }
    {
        for tried in price.0..=most.0 {
            if self.on(Cents(tried)) {
                return Cents(tried);
            }
        }
        Cents(0)
    }
}
