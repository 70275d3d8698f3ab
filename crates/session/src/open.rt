// The call open.
ghost use Rattle.std.specs.Prelude.{◌≡◌, List, ℕ};
ghost use Rattle.book.specs.Lent.{book_in};
ghost use Rattle.session.specs.Market.{market_in};
ghost use Rattle.session.specs.OpenAnswer.{open_answer_of};
ghost use Rattle.session.specs.Sound.{BookSound, Sound};
ghost use Rattle.session.specs.Open.{open_called, printed, open_on, open_of};

use crate::{Opening, Session};
use book::{Book, Records};
use dealing::open::{open_book, which_way};
use entry::refusal::Refusal;
use tally::Tallies;
use units::{Cents, Contracts};

impl Session {
    // The session once open.
    fn open_on(&mut self, tallies: Tallies)
        ensures { self.new ≡ open_on self.old tallies }
    {
        self.opened = true;
        self.tallies = tallies;
    }

    // Opens the series, or refuses.
    pub fn open_core(
        &mut self,
        book: &mut Book,
        lent: usize,
        records: &mut Records,
    ) -> Result<Opening, Refusal>
        requires { BookSound self.old (book_in book.old) }
        ensures exact { (entries : List ℕ) → open_called self.new result (book_in book.new) entries records.new
            ≡ open_of (market_in self.old book.old entries) lent records.old }
        ensures sound { (entries : List ℕ) → Sound (market_in self.old book.old entries)
            → Sound (market_in self.new book.new entries) }
        ensures values { (entries : List ℕ) → printed (open_answer_of result)
            ≡ printed (open_of (market_in self.old book.old entries) lent records.old).answer }
    {
        let Some(price) = which_way(self.accepted, self.series(), lent, book)? else {
            self.open_on(self.tallies);
            return Ok(Opening {
                price: Cents(0),
                volume: Contracts(0),
                fills: 0,
            });
        };
        let done = open_book(self.tallies, price, book, records);
        self.open_on(done.tallies);
        Ok(Opening {
            price,
            volume: done.volume,
            fills: done.fills,
        })
    }
}
