// Prices that the rules add, in numbers that hold any two of them.
ghost use Rattle.std.specs.Prelude.{◌≡◌, ◌+◌};

use units::Cents;

// A price, as a number that a sum of prices fits.
pub fn wide(price: Cents) -> u64
    ensures { result ≡ price.0 }
{
    u64::from(price.0)
}

// A price and a buffer together.
pub fn plus(a: Cents, b: Cents) -> u64
    ensures { result ≡ a.0 + b.0 }
{
    u64::from(a.0) + u64::from(b.0)
}
