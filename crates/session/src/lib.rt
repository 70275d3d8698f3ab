// The session: settings, away quote, book, lanes, rotation and tallies of one option series, the five calls on it, and
// the reading of its tallies.
#![tactic(auto)]

pub mod away;
pub mod open;
pub mod reading;
pub mod settings;
pub mod submit;
pub mod turn;

ghost use Rattle.std.specs.Prelude.{◌≡◌, List, ℕ};
ghost use Rattle.book.specs.Book.{Book};
ghost use Rattle.session.specs.Market.{market_of, series_of};
ghost use Rattle.session.specs.Settings.{no_terms, new_session};
ghost use Rattle.session.specs.Sound.{Sound};

use crate::settings::started;
use dealing::Series;
use entry::refusal::TurnDown;
use entry::{Away, Terms};
use judge::outcome::Disposition;
use lanes::Lanes;
use tally::Tallies;
use units::grid::Grid;
use units::{Cents, Contracts};

// All of a session that is small; the columns of the book and the lanes' entries are lent beside it. Nobody makes one
// but `Session::new` and the calls.
#[derive(Clone, Copy)]
pub struct Session {
    accepted: bool,
    terms: Terms,
    away: Away,
    opened: bool,
    lanes: Lanes,
    next: u64,
    tallies: Tallies,
}

// What a session has before settings are accepted.
fn no_terms() -> Terms
    ensures { result ≡ no_terms }
{
    Terms {
        allocation: 0,
        grid: Grid {
            low: Cents(0),
            high: Cents(0),
        },
        put: false,
        strike: Cents(0),
        drill: Cents(0),
        far: Cents(0),
        percent: 0,
        least: Cents(0),
        greatest: Cents(0),
        print: Cents(0),
        close: Cents(0),
    }
}

impl Session {
    // No accepted settings yet: all calls but settings answer 21, whatever book and entries are lent.
    pub fn new() -> Session
        ensures exact { result ≡ new_session }
        ensures sound { (b : Book) (entries : List ℕ) → Sound (market_of result b entries) }
    {
        started(false, no_terms())
    }

    // The parts of the series.
    fn series(&self) -> Series
        ensures { result ≡ series_of self.now }
    {
        Series {
            terms: self.terms,
            away: self.away,
            opened: self.opened,
        }
    }
}

// What a taken turn of a tenant comes to: its entry is turned down; or cancels the order of a number; or is accepted as
// the order of a number, with the contracts filled, its disposition, and how many fill records it wrote.
#[derive(Clone, Copy)]
pub enum Taken {
    TurnedDown(usize, TurnDown),
    Cancelled(usize, u32),
    Accepted(usize, u32, Contracts, Disposition, usize),
}

// What an opening comes to: the price and the volume, both 0 where no resting buy was at or above a resting sell, and
// how many fill records it wrote.
#[derive(Clone, Copy)]
pub struct Opening {
    pub price: Cents,
    pub volume: Contracts,
    pub fills: usize,
}
