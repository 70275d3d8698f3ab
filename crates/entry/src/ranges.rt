// The settings: their ranges, and what accepted ones say.
ghost use Rattle.std.specs.Prelude.{◌≡◌};
ghost use Rattle.entry.specs.Settings.{series_in_range, protections_in_range, prints_in_range, in_range, terms_of};

use crate::numbers::{from_one_to, one_or_two};
use crate::{Settings, Terms};
use rows::HIGHEST;
use units::grid::Grid;

const PUT: u32 = 2;

// The greatest width percent.
const MOST_PERCENT: u32 = 1000;

// The series: how it allocates, call or put, and its strike.
fn series_in_range(s: Settings) -> bool
    ensures { result ≡ series_in_range s }
{
    one_or_two(s.allocation) && one_or_two(s.option) && from_one_to(HIGHEST, s.strike.0)
}

// The price protections: the two buffers, the width percent, the least and the greatest width.
fn protections_in_range(s: Settings) -> bool
    ensures { result ≡ protections_in_range s }
{
    let buffers = s.drill.0 <= HIGHEST && s.far.0 <= HIGHEST;
    let widths = s.percent <= MOST_PERCENT && s.least.0 <= s.greatest.0 && s.greatest.0 <= HIGHEST;
    buffers && widths
}

// The last print and the previous close, 0 where there is none.
fn prints_in_range(s: Settings) -> bool
    ensures { result ≡ prints_in_range s }
{
    s.print.0 <= HIGHEST && s.close.0 <= HIGHEST
}

// Whether every value but the grid's number lies in its range; that number is a grid's or is not.
pub fn in_range(s: Settings) -> bool
    ensures { result ≡ in_range s }
{
    series_in_range(s) && protections_in_range(s) && prints_in_range(s)
}

// The settings as accepted, on the grid of their number.
pub fn terms_of(s: Settings, grid: Grid) -> Terms
    ensures { result ≡ terms_of s grid }
{
    Terms {
        allocation: s.allocation,
        grid,
        put: s.option == PUT,
        strike: s.strike,
        drill: s.drill,
        far: s.far,
        percent: s.percent,
        least: s.least,
        greatest: s.greatest,
        print: s.print,
        close: s.close,
    }
}
