// The tallies of the nine tenants: turns taken, contracts bought, contracts sold, each added to where it stands.
#![tactic(auto)]

ghost use Rattle.std.specs.Prelude.{◌≡◌};
ghost use Rattle.tally.specs.Tallies.{plus, fits, no_tallies, Countable, counted, turns_in_all, Fitting};

use units::TENANTS;

// What a tenant has done since the last accepted settings.
#[derive(Clone, Copy)]
pub struct Tally {
    pub turns: u64,
    pub bought: u64,
    pub sold: u64,
}

// The tallies, tenant by tenant.
pub type Tallies = [Tally; TENANTS];

// The sum, by value.
fn summed(t: Tally, turns: u64, bought: u64, sold: u64) -> Tally
    requires { fits t turns bought sold }
    ensures { result ≡ plus t turns bought sold }
{
    Tally {
        turns: t.turns + turns,
        bought: t.bought + bought,
        sold: t.sold + sold,
    }
}

// A tally that is lent gets turns, bought and sold added where it stands.
pub fn add(t: &mut Tally, turns: u64, bought: u64, sold: u64)
    requires { fits t.old turns bought sold }
    ensures { t.new ≡ plus t.old turns bought sold }
{
    *t = summed(*t, turns, bought, sold);
}

// A tally of one's own is added to in the same way: it is lent, and returned.
pub fn added(t: Tally, turns: u64, bought: u64, sold: u64) -> Tally
    requires { fits t turns bought sold }
    ensures total { result ≡ plus t turns bought sold }
{
    let mut u = t;
    add(&mut u, turns, bought, sold);
    u
}

// No tenant has done anything.
pub fn none() -> Tallies
    ensures { result ≡ no_tallies }
{
    let zero = Tally {
        turns: 0,
        bought: 0,
        sold: 0,
    };
    [zero; TENANTS]
}

// One tenant's tally is added to.
pub fn count(tallies: Tallies, who: usize, turns: u64, bought: u64, sold: u64) -> Tallies
    requires { Countable tallies who turns bought sold }
    ensures { result ≡ counted tallies who turns bought sold }
{
    let t = tallies[who];
    let u = added(t, turns, bought, sold);
    let mut after = tallies;
    after[who] = u;
    after
}

// Turns taken in all.
pub fn turns_in_all(tallies: Tallies) -> u64
    requires { Fitting tallies }
    ensures { result ≡ turns_in_all tallies }
{
    let mut sum: u64 = 0;
    for t in &tallies {
        sum += t.turns;
    }
    sum
}
