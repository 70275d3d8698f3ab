// The reading of a tenant's tally, which is none of the five calls: it alters nothing, and a session with no accepted
// settings has tallies, too, nine times nothing.
ghost use Rattle.std.specs.Prelude.{◌≡◌};
ghost use Rattle.session.specs.Tallied.{tallied_as};
ghost use Rattle.session.specs.Reading.{tallied_of};

use crate::Session;
use entry::refusal::Refusal;
use tally::Tally;
use units::TENANTS;

impl Session {
    // Turns taken, contracts bought and contracts sold of a tenant, or why there are none to read.
    pub fn tally_of(&self, tenant: u32) -> Result<Tally, Refusal>
        ensures { tallied_as result ≡ tallied_of self.now tenant }
    {
        let t = tenant as usize;
        if TENANTS <= t {
            return Err(Refusal::NoSuchTenant);
        }
        Ok(self.tallies[t])
    }
}
