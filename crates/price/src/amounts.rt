// The seven-row table of NBB ceilings and minimum amounts.
ghost use Rattle.std.specs.Prelude.{◌≡◌};
ghost use Rattle.price.specs.Amounts.{minimum_amount};

use units::{Cents, MOST_32};

// An amount that holds up to a ceiling of the NBB.
#[derive(Clone, Copy)]
struct Row {
    ceiling: Cents,
    amount: Cents,
}

const ROWS: [Row; 7] = [
    Row {
        ceiling: Cents(199),
        amount: Cents(25),
    },
    Row {
        ceiling: Cents(500),
        amount: Cents(40),
    },
    Row {
        ceiling: Cents(1000),
        amount: Cents(50),
    },
    Row {
        ceiling: Cents(2000),
        amount: Cents(80),
    },
    Row {
        ceiling: Cents(5000),
        amount: Cents(100),
    },
    Row {
        ceiling: Cents(10000),
        amount: Cents(150),
    },
    Row {
        ceiling: Cents(MOST_32),
        amount: Cents(200),
    },
];

// The minimum amount at an NBB: that of the first row whose ceiling is not below it.
pub(crate) fn minimum_amount(nbb: Cents) -> Cents
    ensures { result.0 ≡ minimum_amount nbb.0 }
{
    for row in ROWS {
        if nbb.0 <= row.ceiling.0 {
            return row.amount;
        }
    }
    unreachable!()
}
