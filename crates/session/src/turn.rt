// The call turn.
ghost use Rattle.std.specs.Prelude.{◌≡◌, ◌≤◌, Some, Ok, IfOk};
ghost use Rattle.book.specs.Lent.{book_in};
ghost use Rattle.rows.specs.Rows.{no_number};
ghost use Rattle.lanes.specs.Asked.{CanTake};
ghost use Rattle.lanes.specs.Rotation.{served};
ghost use Rattle.tally.specs.Tallies.{Countable};
ghost use Rattle.dealing.specs.Came.{came_of};
ghost use Rattle.dealing.specs.Floor.{next_after};
ghost use Rattle.session.specs.Market.{market_in};
ghost use Rattle.session.specs.Sound.{TurnsHeld, Sound};
ghost use Rattle.session.specs.TurnAnswer.{turn_answer_of};
ghost use Rattle.session.specs.Turn.{printed, turn_code, turn_refusal, after_taking, taken_of, turned_by, turn_called, turn_of};

use crate::{Session, Taken};
use book::{Book, Records};
use dealing::deal::deal;
use dealing::{Came, Dealt};
use entry::refusal::Refusal;
use lanes::Entries;
use lanes::ring::{head, taken};
use lanes::rotation::served;
use rows::ROWS;
use tally::{count, turns_in_all};

// From this many turns in all on, no turn is taken.
const MOST_TURNS: u64 = 1000000000000000000;

// The next number, once an entry is dealt with: an order that is accepted uses one up.
fn next_after(next: u64, came: Came) -> u64
    requires { next ≤ no_number }
    ensures { result ≡ next_after next (came_of came) }
{
    match came {
        Came::TurnedDown(_) | Came::Cancelled(_) => next,
        Came::Accepted(_, _, _, _) => next + 1,
    }
}

// What a taken turn of tenant t comes to, by what came of its entry.
fn taken_of(t: usize, came: Came) -> Taken
    ensures { result ≡ taken_of t came }
{
    match came {
        Came::TurnedDown(why) => Taken::TurnedDown(t, why),
        Came::Cancelled(number) => Taken::Cancelled(t, number),
        Came::Accepted(number, filled, disposition, fills) => {
            Taken::Accepted(t, number, filled, disposition, fills)
        }
    }
}

impl Session {
    // The lane that a turn serves, or why the turn is refused.
    fn lane_served(&self, lent: usize) -> Result<usize, Refusal>
        requires { TurnsHeld self.now }
        ensures code { turn_code result ≡ turn_refusal self.now lent }
        ensures lane { IfOk result (λ t. served self.now.lanes ≡ Some t) }
    {
        if !self.accepted {
            return Err(Refusal::NothingSet);
        }
        let Some(t) = served(self.lanes) else {
            return Err(Refusal::NothingWaits);
        };
        if lent < ROWS {
            return Err(Refusal::FewRecords);
        }
        if MOST_TURNS <= turns_in_all(self.tallies) {
            return Err(Refusal::TurnsUsedUp);
        }
        Ok(t)
    }

    // The turn of lane t is taken.
    fn take(&mut self, t: usize)
        requires can_take { CanTake self.old.lanes t }
        requires countable { Countable self.old.tallies t 1 0 0 }
        ensures { self.new ≡ after_taking self.old t }
    {
        self.lanes = taken(self.lanes, t);
        self.tallies = count(self.tallies, t, 1, 0, 0);
    }

    // What the entry of tenant t's turn leaves, once it is dealt with, and what the turn comes to.
    fn keep(&mut self, t: usize, done: Dealt) -> Taken
        requires { self.old.next ≤ no_number }
        ensures { record { session = self.new; answer = Ok result } ≡ turned_by self.old t done }
    {
        self.next = next_after(self.next, done.came);
        let tallies = done.tallies;
        self.tallies = tallies;
        taken_of(t, done.came)
    }

    // The call turn, with its fill records written as plain numbers, four to a record. `lent` is how many records the
    // caller has room for.
    pub fn turn_core(
        &mut self,
        book: &mut Book,
        entries: &Entries,
        lent: usize,
        records: &mut Records,
    ) -> Result<Taken, Refusal>
        requires { Sound (market_in self.old book.old entries.now) }
        ensures exact { turn_called self.new result (book_in book.new) entries.now records.new
            ≡ turn_of (market_in self.old book.old entries.now) lent records.old }
        ensures sound { Sound (market_in self.new book.new entries.now) }
        ensures values { printed (turn_answer_of result)
            ≡ printed (turn_of (market_in self.old book.old entries.now) lent records.old).answer }
    {
        let t = self.lane_served(lent)?;
        let e = head(self.lanes, entries, t);
        self.take(t);
        let done = deal(self.series(), self.tallies, self.next, t, e, book, records);
        Ok(self.keep(t, done))
    }
}
