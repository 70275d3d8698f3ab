// What the rows that traded add to the tallies.
ghost use Rattle.std.specs.Prelude.{◌≡◌};
ghost use Rattle.units.specs.Lent.{found};
ghost use Rattle.units.specs.Places.{at};
ghost use Rattle.dealing.specs.Credit.{owner_credit, CanCreditOwner, row_credit, CanCredit, credited, Creditable};

use rows::{BUY, Column, ROWS};
use tally::{Tallies, Tally, added};

// A row that traded is counted for its owner: bought if it is a buy and else sold.
fn credit_owner(t: Tally, side: u32, quantity: u32) -> Tally
    requires { CanCreditOwner t side quantity }
    ensures { result ≡ owner_credit t side quantity }
{
    if side == BUY {
        added(t, 0, u64::from(quantity), 0)
    } else {
        added(t, 0, 0, u64::from(quantity))
    }
}

// One row's contracts, bought if it is a buy and else sold, for its owner.
pub(crate) fn credit_row(tallies: Tallies, side: u32, owner: u32, quantity: u32) -> Tallies
    requires { CanCredit tallies side owner quantity }
    ensures { result ≡ row_credit tallies side owner quantity }
{
    let mut after = tallies;
    if 0 < quantity {
        let who = owner as usize;
        after[who] = credit_owner(after[who], side, quantity);
    }
    after
}

// Every row's contracts, for its owner. The nine tallies stay here, and one is added to where a row traded: a call that
// took and returned them all would copy them for each row.
pub fn credit(tallies: Tallies, sides: &Column, owners: &Column, traded: &Column) -> Tallies
    requires { Creditable tallies (at sides.now) (at owners.now) (at traded.now) }
    ensures { result ≡ credited tallies (found sides) (found owners) (found traded) }
{
    let mut after = tallies;
    for i in 0..ROWS {
        let quantity = traded[i];
        if 0 < quantity {
            let who = owners[i] as usize;
            after[who] = credit_owner(after[who], sides[i], quantity);
        }
    }
    after
}
