// The call settings.
ghost use Rattle.std.specs.Prelude.{◌≡◌};
ghost use Rattle.book.specs.Lent.{book_in};
ghost use Rattle.session.specs.Market.{market_in, called};
ghost use Rattle.session.specs.Settings.{started_on, settings_of};
ghost use Rattle.session.specs.Sound.{Sound};

use crate::Session;
use book::Book;
use entry::ranges::{in_range, terms_of};
use entry::refusal::Refusal;
use entry::{Away, Settings, Terms};
use lanes::{ALL_ENTRIES, Entries, Lanes};
use units::Cents;
use units::grid::Grid;

// A session on new terms: nothing rests, waits or is counted, the rotation is at tenant 0 and the series unopened.
pub(crate) fn started(accepted: bool, terms: Terms) -> Session
    ensures { result ≡ started_on accepted terms }
{
    Session {
        accepted,
        terms,
        away: Away {
            bid: Cents(0),
            offer: Cents(0),
        },
        opened: false,
        lanes: Lanes::new(),
        next: 1,
        tallies: tally::none(),
    }
}

impl Session {
    // Accepted settings start all of the market anew.
    pub fn settings(
        &mut self,
        given: Settings,
        book: &mut Book,
        entries: &mut Entries,
    ) -> Result<(), Refusal>
        ensures exact { called self.new result (book_in book.new) entries.new
            ≡ settings_of (market_in self.old book.old entries.old) given }
        ensures sound { Sound (market_in self.old book.old entries.old)
            → Sound (market_in self.new book.new entries.new) }
    {
        let Some(grid) = Grid::of(given.grid) else {
            return Err(Refusal::OutOfRange);
        };
        if !in_range(given) {
            return Err(Refusal::OutOfRange);
        }
        *book = Book::new();
        *entries = [0; ALL_ENTRIES];
        *self = started(true, terms_of(given, grid));
        Ok(())
    }
}
