// The call submit.
ghost use Rattle.std.specs.Prelude.{◌≡◌};
ghost use Rattle.book.specs.Book.{Book};
ghost use Rattle.entry.specs.Refusals.{code_of};
ghost use Rattle.session.specs.Market.{market_of, called};
ghost use Rattle.session.specs.Submit.{submit_refusal, submit_of};
ghost use Rattle.session.specs.Sound.{LanesSound, Sound};

use crate::Session;
use entry::refusal::Refusal;
use lanes::Entries;
use lanes::bulk::{some_malformed, too_many, well_counted};
use lanes::ring::{joined, put_all};
use units::TENANTS;

impl Session {
    // Whether a submit is taken, or why it is refused.
    fn takes_bulk(&self, tenant: u32, count: u32, numbers: &[u32]) -> Result<(), Refusal>
        ensures { code_of result ≡ submit_refusal self.now tenant count numbers.now }
    {
        if !self.accepted {
            return Err(Refusal::NothingSet);
        }
        let t = tenant as usize;
        if TENANTS <= t {
            return Err(Refusal::NoSuchTenant);
        }
        if !well_counted(count, numbers) {
            return Err(Refusal::Miscounted);
        }
        if some_malformed(count, numbers) {
            return Err(Refusal::Malformed);
        }
        if too_many(self.lanes.lanes[t].len, count) {
            return Err(Refusal::LaneFull);
        }
        Ok(())
    }

    // A bulk joins the tenant's lane whole, or is refused. The book is not lent; of a sound market submit asks just the
    // part that does not speak of it, the lanes (`lanes-sound`).
    pub fn submit(
        &mut self,
        tenant: u32,
        count: u32,
        numbers: &[u32],
        entries: &mut Entries,
    ) -> Result<(), Refusal>
        requires { LanesSound self.old entries.old }
        ensures exact { (b : Book) → called self.new result b entries.new
            ≡ submit_of (market_of self.old b entries.old) tenant count numbers.now }
        ensures sound { (b : Book) → Sound (market_of self.old b entries.old) → Sound (market_of self.new b entries.new) }
    {
        self.takes_bulk(tenant, count, numbers)?;
        let t = tenant as usize;
        put_all(self.lanes, entries, t, numbers, count as usize);
        self.lanes = joined(self.lanes, t, count);
        Ok(())
    }
}
