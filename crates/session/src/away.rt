// The call away.
ghost use Rattle.std.specs.Prelude.{◌≡◌, List, ℕ};
ghost use Rattle.book.specs.Book.{Book};
ghost use Rattle.entry.specs.Refusals.{code_of};
ghost use Rattle.session.specs.Market.{market_of, called};
ghost use Rattle.session.specs.Settings.{too_high, away_refusal, away_of};
ghost use Rattle.session.specs.Sound.{Sound};

use crate::Session;
use entry::Away;
use entry::refusal::Refusal;
use rows::HIGHEST;
use units::Cents;

fn too_high(bid: Cents, offer: Cents) -> bool
    ensures { result ≡ too_high bid offer }
{
    HIGHEST < bid.0 || HIGHEST < offer.0
}

impl Session {
    // Whether an away is taken, or why it is refused.
    #[tactic(auto, unfolding(crate::specs::Settings::away_refusal, units::specs::Tests::pick, units::specs::Tests::is_not))]
    fn takes_away(&self, bid: Cents, offer: Cents) -> Result<(), Refusal>
        ensures { code_of result ≡ away_refusal self.now bid offer }
    {
        if !self.accepted {
            return Err(Refusal::NothingSet);
        }
        if too_high(bid, offer) {
            return Err(Refusal::TooHigh);
        }
        Ok(())
    }

    // Replaces the away quote, or refuses.
    pub fn away(&mut self, bid: Cents, offer: Cents) -> Result<(), Refusal>
        ensures exact { (b : Book) (entries : List ℕ) → called self.new result b entries ≡ away_of (market_of self.old b entries) bid offer }
        ensures sound { (b : Book) (entries : List ℕ) → Sound (market_of self.old b entries) → Sound (market_of self.new b entries) }
    {
        self.takes_away(bid, offer)?;
        self.away = Away { bid, offer };
        Ok(())
    }
}
